// The fields of a packet, in their order: a line for each. The types are of other crates, so each is wrapped to be shown.
use crate::units::YesNo;
use crate::vectors_shown::{AreaLines, LinesOf, SourceLines, Whose};
use fields::sequence_number::SequenceNumber;
use fields::traffic_class::TrafficClass;
use packets::common::CommonHeader;
use packets::packet::Packet;
use std::fmt;

// The traffic class octet, and what its top bit means.
#[derive(Clone, Copy)]
pub struct ShownClass(pub TrafficClass);

impl fmt::Display for ShownClass {
    fn fmt<W: fmt::Write>(&self, f: &mut fmt::Formatter<W>) -> fmt::Result {
        let octet = self.0.octet;
        if self.0.store_carry_forward() {
            write!(f, "{octet} (store-carry-forward)")
        } else {
            write!(f, "{octet}")
        }
    }
}

// The fields of the first twelve octets.
#[derive(Clone, Copy)]
pub struct CommonLines(pub CommonHeader);

impl fmt::Display for CommonLines {
    fn fmt<W: fmt::Write>(&self, f: &mut fmt::Formatter<W>) -> fmt::Result {
        let millis = self.0.lifetime.millis();
        let octet = self.0.lifetime.octet;
        let remaining = self.0.remaining_hop_limit;
        let maximum = self.0.maximum_hop_limit;
        let upper = u8::from(self.0.upper_protocol);
        let class = ShownClass(self.0.traffic_class);
        let mobile = YesNo(self.0.mobile);
        writeln!(f, "  lifetime: {millis} ms (octet {octet})")?;
        writeln!(f, "  remaining hop limit: {remaining}")?;
        writeln!(f, "  maximum hop limit: {maximum}")?;
        writeln!(f, "  upper protocol: {upper}")?;
        writeln!(f, "  traffic class: {class}")?;
        writeln!(f, "  mobile: {mobile}")
    }
}

// The sequence number of a numbered kind.
#[derive(Clone, Copy)]
pub struct NumberLine(pub SequenceNumber);

impl fmt::Display for NumberLine {
    fn fmt<W: fmt::Write>(&self, f: &mut fmt::Formatter<W>) -> fmt::Result {
        let number = self.0.value;
        writeln!(f, "  sequence number: {number}")
    }
}

// What stands between the fields that every packet has: the number before the source vector, and the rest behind it.
#[derive(Clone, Copy)]
pub struct ExtendedLines<'a>(pub Packet<'a>);

impl fmt::Display for ExtendedLines<'_> {
    fn fmt<W: fmt::Write>(&self, f: &mut fmt::Formatter<W>) -> fmt::Result {
        let source = SourceLines(self.0.source());
        match self.0 {
            Packet::Beacon(_, _) => write!(f, "{source}"),
            Packet::Unicast(h, _) => {
                let number = NumberLine(h.number);
                let destination = LinesOf {
                    whose: Whose::Destination,
                    field: h.destination,
                };
                write!(f, "{number}{source}{destination}")
            }
            Packet::Anycast(h, _) | Packet::Broadcast(h, _) => {
                let number = NumberLine(h.number);
                let area = AreaLines(h.area);
                write!(f, "{number}{source}{area}")
            }
            Packet::SingleHop(h, _) => {
                let media = h.media;
                writeln!(f, "{source}  media-dependent data: {media:08x}")
            }
            Packet::MultiHop(h, _) => {
                let number = NumberLine(h.number);
                write!(f, "{number}{source}")
            }
        }
    }
}

// All the fields, and where the payload stands.
#[derive(Clone, Copy)]
pub struct PacketLines<'a>(pub Packet<'a>);

impl fmt::Display for PacketLines<'_> {
    fn fmt<W: fmt::Write>(&self, f: &mut fmt::Formatter<W>) -> fmt::Result {
        let common = CommonLines(self.0.common());
        let extended = ExtendedLines(self.0);
        let payload = self.0.payload().len();
        let place = self.0.kind().header_count();
        write!(f, "{common}{extended}")?;
        writeln!(f, "  payload: {payload} octets at place {place}")
    }
}
