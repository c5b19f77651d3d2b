// Why octets are not a packet, and why a packet is not written.
ghost use Rattle.std.specs.Prelude.{◌≡◌};
ghost use Rattle.packets.specs.Faults.{header_number, header_place, write_number, write_place};
ghost use Rattle.packets.specs.declared.fault.HeaderFault.TheVariants.{Octets, UnknownKind};

use crate::kind::UnknownKind;
use octets::fault::{Fault, OctetFault};

#[derive(Clone, Copy, Debug, PartialEq, Eq)]
pub enum HeaderFault {
    Octets(OctetFault),
    TooLong,
    Version,
    NextHeader,
    UnknownKind,
    PayloadLength,
    HopLimit,
    Lifetime,
}

impl Fault for HeaderFault {
    ghost number = { header_number };

    ghost place = { header_place };

    fn number(&self) -> u8 {
        match self {
            HeaderFault::Octets(f) => f.number(),
            HeaderFault::TooLong => 2,
            HeaderFault::Version => 3,
            HeaderFault::NextHeader => 4,
            HeaderFault::UnknownKind => 5,
            HeaderFault::PayloadLength => 6,
            HeaderFault::HopLimit => 7,
            HeaderFault::Lifetime => 8,
        }
    }

    fn place(&self) -> usize {
        match self {
            HeaderFault::Octets(f) => f.place(),
            HeaderFault::TooLong | HeaderFault::Version | HeaderFault::NextHeader => 0,
            HeaderFault::UnknownKind => 5,
            HeaderFault::PayloadLength => 8,
            HeaderFault::HopLimit => 3,
            HeaderFault::Lifetime => 2,
        }
    }
}

impl From<UnknownKind> for HeaderFault {
    ghost from_gives = { λ _ fault. fault ≡ UnknownKind };

    fn from(_kind: UnknownKind) -> Self {
        Self::UnknownKind
    }
}

impl From<OctetFault> for HeaderFault {
    ghost from_gives = { λ f r. r ≡ Octets f };

    fn from(fault: OctetFault) -> HeaderFault {
        HeaderFault::Octets(fault)
    }
}

#[derive(Clone, Copy, Debug, PartialEq, Eq)]
pub enum WriteFault {
    HopLimit,
    Lifetime,
    Position,
    Payload,
}

impl Fault for WriteFault {
    ghost number = { write_number };

    ghost place = { write_place };

    fn number(&self) -> u8 {
        match self {
            WriteFault::HopLimit => 7,
            WriteFault::Lifetime => 8,
            WriteFault::Position => 9,
            WriteFault::Payload => 12,
        }
    }

    // There is no octet at fault yet.
    fn place(&self) -> usize {
        0
    }
}
