// The answer to a situation.
use crate::links::Links;
use crate::shown::{SituationLines, TextLines};
use crate::steps::rounds;
use ground::scale::EastScale;
use hex_digits::encode::Hex;
use octets::fault::Fault;
use radio_queue::queue::{FRAMES, RadioQueue};
use situation::told::Situation;
use std::io;

// Does the steps of a situation and writes what came of them, or why there is no ground for them.
pub fn print_situation<R: Print + AllocGlobal>(
    rt: &R,
    line: u64,
    situation: &Situation,
) -> io::Result<()> {
    match EastScale::try_from(situation.fields.scale) {
        Ok(scale) => {
            let mut links = Links::new(rt.alloc(), situation.fields.room)?;
            let last = rounds(situation, scale, &mut links);
            rt.print(SituationLines {
                line,
                situation,
                scale,
                last,
            })?;
            print_queue(rt, &mut links.queue)?;
            rt.print(TextLines(links.text.text()))
        }
        Err(fault) => {
            let number = fault.number();
            println!(rt; "line {line}: refused, number {number} at place 0: {fault}")
        }
    }
}

// The frames of the queue, as the radio takes them off. The loop counts them, since each is printed with its number.
fn print_queue(rt: &impl Print, queue: &mut RadioQueue) -> io::Result<()> {
    let mut packet = [0; 1458];
    for number in 1..=FRAMES {
        let Some(head) = queue.take_first(&mut packet) else {
            break;
        };
        let to = Hex(&head.to.octets);
        let octets = Hex(&packet[0..head.count]);
        println!(rt; "  radio queue, frame {number}: to {to}, {octets}")?;
    }
    Ok(())
}
