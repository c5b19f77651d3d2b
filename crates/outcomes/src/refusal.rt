// A refusal: its number, the place of the octet at fault, and the reason in words.
ghost use Rattle.std.specs.Prelude.{◌≡◌};
ghost use Rattle.packets.specs.Faults.{header_number, header_place, write_number, write_place};
ghost use Rattle.outcomes.specs.Reasons.{reason_number};

use crate::reason::Reason;
use octets::fault::Fault;
use packets::fault::{HeaderFault, WriteFault};
use std::fmt;

#[derive(Clone, Copy)]
pub struct Refusal {
    pub reason: Reason,
    pub place: usize,
}

impl Refusal {
    // A method and no From: a refusal says more than its number.
    pub fn number(&self) -> u8
        ensures { result ≡ reason_number self.now.reason }
    {
        self.reason as u8
    }
}

// The refusal of a packet that was not read.
impl From<HeaderFault> for Refusal {
    ghost from_gives = { λ fault refusal. (reason_number refusal.reason ≡ header_number fault) × (refusal.place ≡ header_place fault) };

    fn from(fault: HeaderFault) -> Refusal {
        let place = fault.place();
        let reason = Reason::from(fault);
        Refusal { reason, place }
    }
}

// The refusal of a packet that was not written.
impl From<WriteFault> for Refusal {
    ghost from_gives = { λ fault refusal. (reason_number refusal.reason ≡ write_number fault) × (refusal.place ≡ write_place fault) };

    fn from(fault: WriteFault) -> Refusal {
        Refusal {
            reason: Reason::from(fault),
            place: fault.place(),
        }
    }
}

impl fmt::Display for Refusal {
    fn fmt<W: fmt::Write>(&self, f: &mut fmt::Formatter<W>) -> fmt::Result {
        let number = self.number();
        let place = self.place;
        let reason = self.reason;
        write!(f, "refused, number {number} at place {place}: {reason}")
    }
}
