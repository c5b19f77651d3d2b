// Why something is refused, and why some octets are not a field.
ghost use Rattle.std.specs.Prelude.{◌≡◌, ℕ};
ghost use Rattle.octets.specs.Faults.{octet_number, octet_place};

// Why something is refused: by a number, at a place of the octets.
pub trait Fault {
    ghost number: { Self → ℕ };

    // 0, where there are no octets yet.
    ghost place: { Self → ℕ };

    fn number(&self) -> u8
        ensures { result ≡ number self.now };

    fn place(&self) -> usize
        ensures { result ≡ place self.now };
}

#[derive(Clone, Copy, Debug, PartialEq, Eq)]
pub enum OctetFault {
    // The octets end before the end of the field that begins at `place`.
    Missing { place: usize },
    // The field that begins at `place` has a value beyond its range.
    OutOfRange { place: usize },
}

impl Fault for OctetFault {
    ghost number = { octet_number };

    ghost place = { octet_place };

    fn number(&self) -> u8 {
        match self {
            OctetFault::Missing { .. } => 2,
            OctetFault::OutOfRange { .. } => 9,
        }
    }

    // The place of the field at fault.
    fn place(&self) -> usize {
        match self {
            OctetFault::Missing { place } => *place,
            OctetFault::OutOfRange { place } => *place,
        }
    }
}
