// A line of hexadecimal octets, taken apart.
use crate::report::{NotOctets, Report};
use hex_digits::decode::decode;
use hex_digits::fault::HexFault;
use lines::answer::{Answer, answer_all};
use lines::line::Line;
use outcomes::examine::examine;
use receive_buffer::buffer::ReceiveBuffer;
use std::io;
use std::io::{Error, ErrorKind};

// The program: each line is a packet.
pub struct Show;

impl<R: Print + AllocGlobal> Answer<R> for Show {
    fn answer(&self, rt: &R, line: Line) -> io::Result<()> {
        match decode(rt.alloc(), line.text) {
            Ok(octets) => print_report(rt, line.number, octets.as_slice()),
            Err(HexFault::NotOctets) => rt.print(NotOctets { line: line.number }),
            Err(HexFault::NoMemory) => Err(Error::from(ErrorKind::OutOfMemory)),
        }
    }
}

// Writes what came of the octets on a line.
fn print_report(rt: &impl Print, line: u64, octets: &[u8]) -> io::Result<()> {
    let mut buffer = ReceiveBuffer::new();
    let outcome = buffer.fill(octets).and_then(|_| examine(buffer.octets()));
    rt.print(Report { line, outcome })
}

// Takes apart the packets on standard input.
pub fn run<R: Input + Print + AllocGlobal>(rt: &R) -> io::Result<()> {
    answer_all(rt, &Show)
}
