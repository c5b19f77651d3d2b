// Distances, verdicts and frames, in words.
use crate::distances::Distances;
use crate::on_ground::OnGround;
use crate::verdicts::{GroundVerdicts, LinkVerdicts, RoundVerdicts};
use forwarding::verdict::Verdict;
use ground::Ground;
use ground::flat::Flat;
use ground::scale::EastScale;
use ground::street::Street;
use hex_digits::encode::Hex;
use situation::told::Situation;
use std::fmt;

// The sender's distance, if it is known.
#[derive(Clone, Copy)]
struct Sender(pub Option<u32>);

impl fmt::Display for Sender {
    fn fmt<W: fmt::Write>(&self, f: &mut fmt::Formatter<W>) -> fmt::Result {
        match self.0 {
            Some(distance) => write!(f, "sender {distance} dm"),
            None => f.write_str("sender unknown"),
        }
    }
}

// The neighbours' distances.
#[derive(Clone, Copy)]
struct Neighbours<'a>(pub &'a [u32]);

impl fmt::Display for Neighbours<'_> {
    fn fmt<W: fmt::Write>(&self, f: &mut fmt::Formatter<W>) -> fmt::Result {
        if self.0.is_empty() {
            return f.write_str("no neighbours");
        }
        f.write_str("neighbours")?;
        for distance in self.0 {
            write!(f, " {distance}")?;
        }
        f.write_str(" dm")
    }
}

// Whether we are inside the circle.
#[derive(Clone, Copy)]
struct Side(pub bool);

impl fmt::Display for Side {
    fn fmt<W: fmt::Write>(&self, f: &mut fmt::Formatter<W>) -> fmt::Result {
        f.write_str(if self.0 { "inside" } else { "outside" })
    }
}

#[derive(Clone, Copy)]
struct ShownVerdict(Verdict);

impl fmt::Display for ShownVerdict {
    fn fmt<W: fmt::Write>(&self, f: &mut fmt::Formatter<W>) -> fmt::Result {
        let number = self.0.number();
        match self.0 {
            Verdict::Unicast(to) => {
                let address = Hex(&to.octets);
                write!(f, "verdict {number} to {address}")
            }
            Verdict::Wait(millis) => write!(f, "verdict {number} for {millis} ms"),
            _ => write!(f, "verdict {number}"),
        }
    }
}

// The last verdicts over one ground, with one policy, if the step was done at all.
#[derive(Clone, Copy)]
struct LastVerdicts(pub Option<LinkVerdicts>);

impl fmt::Display for LastVerdicts {
    fn fmt<W: fmt::Write>(&self, f: &mut fmt::Formatter<W>) -> fmt::Result {
        match self.0 {
            Some(verdicts) => {
                let queue = ShownVerdict(verdicts.queue);
                let text = ShownVerdict(verdicts.text);
                write!(f, "{queue} on the radio queue, {text} on the text link")
            }
            None => f.write_str("nothing on the radio queue, nothing on the text link"),
        }
    }
}

// One ground, by its name: the distances, and the last verdicts over it.
#[derive(Clone, Copy)]
struct GroundLines<'a> {
    name: &'a str,
    distances: &'a Distances,
    last: Option<GroundVerdicts>,
}

impl fmt::Display for GroundLines<'_> {
    fn fmt<W: fmt::Write>(&self, f: &mut fmt::Formatter<W>) -> fmt::Result {
        let name = self.name;
        let ours = self.distances.ours;
        let sender = Sender(self.distances.sender);
        let neighbours = Neighbours(self.distances.near.as_slice());
        let side = Side(self.distances.inside);
        let greedy = LastVerdicts(self.last.map(|verdicts| verdicts.greedy));
        let contention = LastVerdicts(self.last.map(|verdicts| verdicts.contention));
        writeln!(
            f,
            "  {name}: ours {ours} dm, {sender}, {neighbours}, {side}"
        )?;
        writeln!(f, "  {name} and greedy: {greedy}")?;
        writeln!(f, "  {name} and contention: {contention}")
    }
}

// How many neighbours there are, and the lines of both grounds.
#[derive(Clone, Copy)]
pub struct SituationLines<'a> {
    pub line: u64,
    pub situation: &'a Situation,
    pub scale: EastScale,
    pub last: Option<RoundVerdicts>,
}

impl SituationLines<'_> {
    fn distances<G: Ground>(&self, ground: &G) -> Distances {
        OnGround {
            situation: self.situation,
            ground,
        }
        .distances()
    }
}

impl fmt::Display for SituationLines<'_> {
    fn fmt<W: fmt::Write>(&self, f: &mut fmt::Formatter<W>) -> fmt::Result {
        let line = self.line;
        let scale = self.scale;
        let flat = self.distances(&Flat { scale });
        let street = self.distances(&Street { scale });
        let neighbours = flat.near.len();
        let stations = self.situation.table.entries().len();
        let flat = GroundLines {
            name: "flat",
            distances: &flat,
            last: self.last.map(|round| round.flat),
        };
        let street = GroundLines {
            name: "street",
            distances: &street,
            last: self.last.map(|round| round.street),
        };
        writeln!(
            f,
            "line {line}: {neighbours} of {stations} stations are neighbours"
        )?;
        write!(f, "{flat}{street}")
    }
}

// The lines of a text, each behind the name of the link.
#[derive(Clone, Copy)]
pub struct TextLines<'a>(pub &'a [u8]);

impl fmt::Display for TextLines<'_> {
    fn fmt<W: fmt::Write>(&self, f: &mut fmt::Formatter<W>) -> fmt::Result {
        for line in self.0.split_inclusive(|octet| *octet == b'\n') {
            f.write_str("  text link: ")?;
            for octet in line {
                f.write_char(char::from(*octet))?;
            }
        }
        Ok(())
    }
}
