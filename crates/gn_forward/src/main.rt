// Says which way packets go: reads situations in words, and writes what comes of the forwarding step over each ground,
// policy and link.
#![tactic(auto)]

mod distances;
mod links;
mod on_ground;
mod report;
mod shown;
mod steps;
mod verdicts;

use crate::report::print_situation;
use lines::answer::{Answer, answer_all};
use lines::line::Line;
use request::fault::LineFault;
use situation::line::situation_in;
use std::io;
use std::io::{Error, ErrorKind};

// The program: each line is a situation.
struct Forward;

impl<R: Print + AllocGlobal> Answer<R> for Forward {
    fn answer(&self, rt: &R, line: Line) -> io::Result<()> {
        let number = line.number;
        match situation_in(rt.alloc(), line.text) {
            Ok(situation) => print_situation(rt, number, &situation),
            Err(LineFault::NotUnderstood) => println!(rt; "line {number}: not a situation"),
            Err(LineFault::NoMemory) => Err(Error::from(ErrorKind::OutOfMemory)),
        }
    }
}

fn main(rt: HostRuntime) -> io::Result<()> {
    answer_all(&rt, &Forward)
}
