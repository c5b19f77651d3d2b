// Writes packets: reads lines of words, and writes the packets that they ask for as hexadecimal octets.
#![tactic(auto)]

use hex_digits::encode::Hex;
use lines::answer::{Answer, answer_all};
use lines::line::Line;
use outcomes::refusal::Refusal;
use request::asked::Request;
use request::fault::LineFault;
use request::line::request_in;
use request::make::write_request;
use std::io;
use std::io::{Error, ErrorKind};

// The program: each line is a request.
struct Make;

impl<R: Print + AllocGlobal> Answer<R> for Make {
    fn answer(&self, rt: &R, line: Line) -> io::Result<()> {
        let number = line.number;
        match request_in(rt.alloc(), line.text) {
            Ok(request) => print_packet(rt, number, &request),
            Err(LineFault::NotUnderstood) => println!(rt; "line {number}: not a packet"),
            Err(LineFault::NoMemory) => Err(Error::from(ErrorKind::OutOfMemory)),
        }
    }
}

// Writes the octets of the packet that was asked for, or why it is not written. The writer fills a fixed buffer.
fn print_packet(rt: &impl Print, number: u64, request: &Request) -> io::Result<()> {
    let mut buffer = [0; 1458];
    match write_request(request, &mut buffer) {
        Ok(count) => rt.println(Hex(&buffer[0..count])),
        Err(fault) => {
            let refusal = Refusal::from(fault);
            println!(rt; "line {number}: {refusal}")
        }
    }
}

fn main(rt: HostRuntime) -> io::Result<()> {
    answer_all(&rt, &Make)
}
