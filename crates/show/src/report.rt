// The answers to the lines.
use crate::packet_lines::PacketLines;
use outcomes::refusal::Refusal;
use outcomes::taken::Taken;
use packets::fault::HeaderFault;
use std::fmt;

// The answer to a line, by its number, that has no octets on it.
#[derive(Clone, Copy)]
pub struct NotOctets {
    pub line: u64,
}

impl fmt::Display for NotOctets {
    fn fmt<W: fmt::Write>(&self, f: &mut fmt::Formatter<W>) -> fmt::Result {
        let line = self.line;
        writeln!(f, "line {line}: not hexadecimal octets")
    }
}

// The answer to a line, by its number, that has octets on it.
#[derive(Clone, Copy)]
pub struct Report<'a> {
    pub line: u64,
    pub outcome: Result<Taken<'a>, HeaderFault>,
}

impl fmt::Display for Report<'_> {
    fn fmt<W: fmt::Write>(&self, f: &mut fmt::Formatter<W>) -> fmt::Result {
        let line = self.line;
        match self.outcome {
            Ok(taken) => {
                let kind = taken.packet.kind();
                let count = taken.count;
                let fields = PacketLines(taken.packet);
                let octets = if taken.same { "the same" } else { "other" };
                writeln!(f, "line {line}: {kind}, {count} octets")?;
                writeln!(f, "{fields}  written back: {octets} octets")
            }
            Err(fault) => {
                let refusal = Refusal::from(fault);
                writeln!(f, "line {line}: {refusal}")
            }
        }
    }
}
