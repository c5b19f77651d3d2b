// Numbers with their units.
use std::fmt;

// A flag, in words.
#[derive(Clone, Copy)]
pub struct YesNo(pub bool);

impl fmt::Display for YesNo {
    fn fmt<W: fmt::Write>(&self, f: &mut fmt::Formatter<W>) -> fmt::Result {
        f.write_str(if self.0 { "yes" } else { "no" })
    }
}

// The sign of a number that is written in parts: nothing, unless it is negative.
fn sign(negative: bool) -> &'static str {
    if negative { "-" } else { "" }
}

// A latitude or a longitude, from tenths of a microdegree.
#[derive(Clone, Copy)]
pub struct Degrees(pub i32);

impl fmt::Display for Degrees {
    fn fmt<W: fmt::Write>(&self, f: &mut fmt::Formatter<W>) -> fmt::Result {
        let value = self.0;
        let sign = sign(value < 0);
        let size = value.unsigned_abs();
        write!(
            f,
            "{sign}{}.{:07} degrees ({value})",
            size / 10_000_000,
            size % 10_000_000
        )
    }
}

// A speed, from hundredths of a metre per second.
#[derive(Clone, Copy)]
pub struct MetresPerSecond(pub i16);

impl fmt::Display for MetresPerSecond {
    fn fmt<W: fmt::Write>(&self, f: &mut fmt::Formatter<W>) -> fmt::Result {
        let value = self.0;
        let sign = sign(value < 0);
        let size = value.unsigned_abs();
        write!(f, "{sign}{}.{:02} m/s ({value})", size / 100, size % 100)
    }
}

// A heading, from tenths of a degree.
#[derive(Clone, Copy)]
pub struct Heading(pub u16);

impl fmt::Display for Heading {
    fn fmt<W: fmt::Write>(&self, f: &mut fmt::Formatter<W>) -> fmt::Result {
        let value = self.0;
        write!(f, "{}.{} degrees ({value})", value / 10, value % 10)
    }
}
