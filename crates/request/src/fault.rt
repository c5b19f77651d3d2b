// Why the words of a line are not taken.
ghost use Rattle.std.specs.Prelude.{◌≡◌};
ghost use Rattle.request.specs.Faults.{fault_of};
ghost use Rattle.request.specs.declared.fault.LineFault.TheVariants.{NotUnderstood, NoMemory};

use hex_digits::fault::HexFault;
use packets::kind::UnknownName;
use std::alloc::AllocError;
use std::str::Utf8Error;

#[derive(Clone, Copy, Debug, PartialEq, Eq)]
pub enum LineFault {
    // A word has no meaning, or tells of one station too many.
    NotUnderstood,
    NoMemory,
}

// One impl for each fault that `?` passes up.
impl From<AllocError> for LineFault {
    ghost from_gives = { λ _ r. r ≡ NoMemory };

    fn from(_e: AllocError) -> LineFault {
        LineFault::NoMemory
    }
}

impl From<HexFault> for LineFault {
    ghost from_gives = { λ fault r. r ≡ fault_of fault };

    fn from(fault: HexFault) -> LineFault {
        match fault {
            HexFault::NotOctets => LineFault::NotUnderstood,
            HexFault::NoMemory => LineFault::NoMemory,
        }
    }
}

// A name that no kind has.
impl From<UnknownName> for LineFault {
    ghost from_gives = { λ _ r. r ≡ NotUnderstood };

    fn from(_e: UnknownName) -> LineFault {
        LineFault::NotUnderstood
    }
}

// Octets that are no text.
impl From<Utf8Error> for LineFault {
    ghost from_gives = { λ _ r. r ≡ NotUnderstood };

    fn from(_e: Utf8Error) -> LineFault {
        LineFault::NotUnderstood
    }
}
