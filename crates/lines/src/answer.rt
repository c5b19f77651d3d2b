// A program that answers the lines of its input, one after another.
use crate::line::{Line, content, is_passed_over};
use std::io;
use std::io::{BufRead, BufReader};

// A trait and no closure: of a closure it would have to be asked that it may be called.
pub trait Answer<R> {
    // Writes the answer to one line.
    fn answer(&self, rt: &R, line: Line) -> io::Result<()>;
}

// Answers each line that is not passed over, up to the end of the input.
// By read_until and not by split: a carriage return is passed over only before a line feed. The loop counts the lines,
// since each is handed on with its number.
pub fn answer_all<R: Input + AllocGlobal, A: Answer<R>>(rt: &R, program: &A) -> io::Result<()> {
    let mut input = BufReader::new(rt.alloc(), rt.reader())?;
    let mut line = Vec::new(rt.alloc());
    for number in 1..u64::MAX {
        line.clear();
        if input.read_until(b'\n', &mut line)? == 0 {
            break;
        }
        let text = content(line.as_slice());
        if !is_passed_over(text) {
            program.answer(rt, Line { number, text })?;
        }
    }
    Ok(())
}
