// Why a call is refused.
ghost use Rattle.std.specs.Prelude.{◌≡◌};
ghost use Rattle.rules.specs.Refusals.{number, place};
ghost use Rattle.rules.specs.declared.fault.RouterFault.TheVariants.{Packet, Request};

use octets::fault::Fault;
use packets::fault::{HeaderFault, WriteFault};

#[derive(Clone, Copy)]
pub enum RouterFault {
    // The time is above the limit, or below that of the last accepted call.
    Time,
    // The received octets are no packet.
    Packet(HeaderFault),
    // A position or a speed that we are told to have is out of its range.
    Placing,
    // The source of the packet is ourselves.
    OwnAddress,
    // The source is unknown and the location table is full.
    TableFull,
    // The packet to be sent cannot be written.
    Request(WriteFault),
    // A unicast to ourselves, or to a station that is not in the table.
    Destination,
}

// One impl for each fault that `?` passes up.
impl From<HeaderFault> for RouterFault {
    ghost from_gives = { λ f r. r ≡ Packet f };

    fn from(fault: HeaderFault) -> RouterFault {
        RouterFault::Packet(fault)
    }
}

impl From<WriteFault> for RouterFault {
    ghost from_gives = { λ f r. r ≡ Request f };

    fn from(fault: WriteFault) -> RouterFault {
        RouterFault::Request(fault)
    }
}

impl Fault for RouterFault {
    ghost number = { number };

    ghost place = { place };

    fn number(&self) -> u8 {
        match self {
            RouterFault::Time => 1,
            RouterFault::Packet(fault) => fault.number(),
            RouterFault::Placing => 9,
            RouterFault::OwnAddress => 10,
            RouterFault::TableFull => 11,
            RouterFault::Request(fault) => fault.number(),
            RouterFault::Destination => 13,
        }
    }

    // 0, where no received octet is at fault.
    fn place(&self) -> usize {
        match self {
            RouterFault::Packet(fault) => fault.place(),
            _ => 0,
        }
    }
}
