// Why a packet is refused, in words.
ghost use Rattle.std.specs.Prelude.{◌≡◌};
ghost use Rattle.octets.specs.Faults.{octet_number};
ghost use Rattle.packets.specs.Faults.{header_number, write_number};
ghost use Rattle.outcomes.specs.Reasons.{reason_number};

use octets::fault::OctetFault;
use packets::fault::{HeaderFault, WriteFault};
use std::fmt;

// Each has the number of its refusal.
#[derive(Clone, Copy, Debug, PartialEq, Eq)]
pub enum Reason {
    Size = 2,
    Version = 3,
    NextHeader = 4,
    UnknownKind = 5,
    PayloadLength = 6,
    HopLimits = 7,
    Lifetime = 8,
    Coordinate = 9,
    PayloadLimit = 12,
}

impl From<OctetFault> for Reason {
    ghost from_gives = { λ fault reason. reason_number reason ≡ octet_number fault };

    fn from(fault: OctetFault) -> Reason {
        match fault {
            OctetFault::Missing { .. } => Reason::Size,
            OctetFault::OutOfRange { .. } => Reason::Coordinate,
        }
    }
}

impl From<HeaderFault> for Reason {
    ghost from_gives = { λ fault reason. reason_number reason ≡ header_number fault };

    fn from(fault: HeaderFault) -> Reason {
        match fault {
            HeaderFault::Octets(fault) => Reason::from(fault),
            HeaderFault::TooLong => Reason::Size,
            HeaderFault::Version => Reason::Version,
            HeaderFault::NextHeader => Reason::NextHeader,
            HeaderFault::UnknownKind => Reason::UnknownKind,
            HeaderFault::PayloadLength => Reason::PayloadLength,
            HeaderFault::HopLimit => Reason::HopLimits,
            HeaderFault::Lifetime => Reason::Lifetime,
        }
    }
}

impl From<WriteFault> for Reason {
    ghost from_gives = { λ fault reason. reason_number reason ≡ write_number fault };

    fn from(fault: WriteFault) -> Reason {
        match fault {
            WriteFault::HopLimit => Reason::HopLimits,
            WriteFault::Lifetime => Reason::Lifetime,
            WriteFault::Position => Reason::Coordinate,
            WriteFault::Payload => Reason::PayloadLimit,
        }
    }
}

impl fmt::Display for Reason {
    fn fmt<W: fmt::Write>(&self, f: &mut fmt::Formatter<W>) -> fmt::Result {
        f.write_str(match self {
            Reason::Size => "fewer than 12 or more than 1458 octets",
            Reason::Version => "the version is not 1",
            Reason::NextHeader => "the next header is not 1",
            Reason::UnknownKind => "type and subtype are no known kind",
            Reason::PayloadLength => "the octets do not match the payload length",
            Reason::HopLimits => "the hop limits do not fit",
            Reason::Lifetime => "the lifetime multiplier is 0",
            Reason::Coordinate => "a latitude or longitude is out of range",
            Reason::PayloadLimit => "the payload is too long",
        })
    }
}
