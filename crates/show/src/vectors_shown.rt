// Positions, position vectors and areas: a line for each field.
use crate::units::{Degrees, Heading, MetresPerSecond, YesNo};
use fields::position::Position;
use std::fmt;
use vectors::area::Area;
use vectors::long::LongPositionVector;
use vectors::short::ShortPositionVector;

// Whose position it is.
#[derive(Clone, Copy)]
pub enum Whose {
    Source,
    Destination,
    Centre,
}

impl fmt::Display for Whose {
    fn fmt<W: fmt::Write>(&self, f: &mut fmt::Formatter<W>) -> fmt::Result {
        f.write_str(match self {
            Whose::Source => "source",
            Whose::Destination => "destination",
            Whose::Centre => "centre",
        })
    }
}

// The lines of a field, each with whose it is.
#[derive(Clone, Copy)]
pub struct LinesOf<T> {
    pub whose: Whose,
    pub field: T,
}

impl fmt::Display for LinesOf<Position> {
    fn fmt<W: fmt::Write>(&self, f: &mut fmt::Formatter<W>) -> fmt::Result {
        let whose = self.whose;
        let latitude = Degrees(self.field.latitude);
        let longitude = Degrees(self.field.longitude);
        writeln!(f, "  {whose} latitude: {latitude}")?;
        writeln!(f, "  {whose} longitude: {longitude}")
    }
}

impl fmt::Display for LinesOf<ShortPositionVector> {
    fn fmt<W: fmt::Write>(&self, f: &mut fmt::Formatter<W>) -> fmt::Result {
        let whose = self.whose;
        let address = self.field.address.value;
        let millis = self.field.timestamp.millis;
        let position = LinesOf {
            whose,
            field: self.field.position,
        };
        writeln!(f, "  {whose} address: {address:016x}")?;
        writeln!(f, "  {whose} timestamp: {millis} ms")?;
        write!(f, "{position}")
    }
}

// The source vector of a packet.
#[derive(Clone, Copy)]
pub struct SourceLines(pub LongPositionVector);

impl fmt::Display for SourceLines {
    fn fmt<W: fmt::Write>(&self, f: &mut fmt::Formatter<W>) -> fmt::Result {
        let short = LinesOf {
            whose: Whose::Source,
            field: self.0.short,
        };
        let accurate = YesNo(self.0.motion.accurate());
        let speed = MetresPerSecond(self.0.motion.speed());
        let heading = Heading(self.0.heading);
        write!(f, "{short}")?;
        writeln!(f, "  source accuracy flag: {accurate}")?;
        writeln!(f, "  source speed: {speed}")?;
        writeln!(f, "  source heading: {heading}")
    }
}

#[derive(Clone, Copy)]
pub struct AreaLines(pub Area);

impl fmt::Display for AreaLines {
    fn fmt<W: fmt::Write>(&self, f: &mut fmt::Formatter<W>) -> fmt::Result {
        let centre = LinesOf {
            whose: Whose::Centre,
            field: self.0.centre,
        };
        let radius = self.0.radius;
        let distance_b = self.0.distance_b;
        let angle = self.0.angle;
        write!(f, "{centre}")?;
        writeln!(f, "  radius: {radius} m")?;
        writeln!(f, "  distance b: {distance_b}")?;
        writeln!(f, "  angle: {angle}")
    }
}
