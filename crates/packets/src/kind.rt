// The kinds of packet.
ghost use Rattle.std.specs.Prelude.{◌≡◌, Some};
ghost use Rattle.packets.specs.Kinds.{kind_from, kind_name, KindNamed, kind_octet, headers_of, payload_limit};

use std::fmt;
use std::str::FromStr;

// With type and subtype as their numbers.
#[derive(Clone, Copy, Debug, PartialEq, Eq)]
pub enum Kind {
    Beacon = 0x10,
    Unicast = 0x20,
    Anycast = 0x30,
    Broadcast = 0x40,
    SingleHop = 0x50,
    MultiHop = 0x51,
}

// A type and subtype that no kind has.
#[derive(Clone, Copy, Debug, PartialEq, Eq)]
pub struct UnknownKind {
    pub octet: u8,
}

impl TryFrom<u8> for Kind {
    type Error = UnknownKind;

    ghost try_from_gives = { λ octet answer. answer ≡ kind_from octet };

    // The kind of this type and subtype, if there is one.
    fn try_from(octet: u8) -> Result<Kind, UnknownKind> {
        match octet {
            0x10 => Ok(Kind::Beacon),
            0x20 => Ok(Kind::Unicast),
            0x30 => Ok(Kind::Anycast),
            0x40 => Ok(Kind::Broadcast),
            0x50 => Ok(Kind::SingleHop),
            0x51 => Ok(Kind::MultiHop),
            _ => Err(UnknownKind { octet }),
        }
    }
}

impl From<Kind> for u8 {
    ghost from_gives = { λ kind octet. octet ≡ kind_octet kind };

    fn from(kind: Kind) -> u8 {
        kind as u8
    }
}

// A text that is no kind's name.
#[derive(Clone, Copy, Debug, PartialEq, Eq)]
pub struct UnknownName;

// Names are in lower case.
impl FromStr for Kind {
    type Err = UnknownName;

    ghost from_str_gives = { KindNamed };

    fn from_str(name: &str) -> Result<Kind, UnknownName> {
        match name {
            "beacon" => Ok(Kind::Beacon),
            "unicast" => Ok(Kind::Unicast),
            "anycast" => Ok(Kind::Anycast),
            "broadcast" => Ok(Kind::Broadcast),
            "single-hop" => Ok(Kind::SingleHop),
            "multi-hop" => Ok(Kind::MultiHop),
            _ => Err(UnknownName),
        }
    }
}

// The name of the kind.
impl fmt::Display for Kind {
    ghost output = { λ kind. Some (kind_name kind) };

    fn fmt<W: fmt::Write>(&self, f: &mut fmt::Formatter<W>) -> fmt::Result {
        f.write_str(match self {
            Kind::Beacon => "beacon",
            Kind::Unicast => "unicast",
            Kind::Anycast => "anycast",
            Kind::Broadcast => "broadcast",
            Kind::SingleHop => "single-hop",
            Kind::MultiHop => "multi-hop",
        })
    }
}

impl Kind {
    // How many octets stand before the payload.
    pub fn header_count(self) -> usize
        ensures { result ≡ headers_of self }
    {
        match self {
            Kind::Beacon => 36,
            Kind::Unicast => 60,
            Kind::Anycast | Kind::Broadcast => 56,
            Kind::SingleHop | Kind::MultiHop => 40,
        }
    }

    // How many octets of payload there may be.
    pub fn payload_limit(self) -> usize
        ensures { result ≡ payload_limit self }
    {
        match self {
            Kind::Beacon => 0,
            _ => 1_398,
        }
    }
}
