// The unit of a lifetime.
ghost use Rattle.std.specs.Prelude.{◌≡◌, ◌%◌, ◌<◌};
ghost use Rattle.times.specs.Lifetimes.{unit_of};

#[derive(Clone, Copy, Debug, PartialEq, Eq)]
pub enum Unit {
    FiftyMillis,
    Second,
    TenSeconds,
    HundredSeconds,
}

impl Unit {
    ghost use Rattle.times.specs.Units.{unit_number};

    // The smallest first.
    pub const ALL: [Unit; 4] = [
        Unit::FiftyMillis,
        Unit::Second,
        Unit::TenSeconds,
        Unit::HundredSeconds,
    ];

    // The unit that the low two bits of an octet stand for. No From: an octet says more than that.
    pub fn of(octet: u8) -> Unit
        ensures { unit_number result ≡ octet % 4 }
    {
        match octet % 4 {
            0 => Unit::FiftyMillis,
            1 => Unit::Second,
            2 => Unit::TenSeconds,
            _ => Unit::HundredSeconds,
        }
    }

    pub fn millis(self) -> u32
        ensures { result ≡ unit_of (unit_number self) }
    {
        match self {
            Unit::FiftyMillis => 50,
            Unit::Second => 1_000,
            Unit::TenSeconds => 10_000,
            Unit::HundredSeconds => 100_000,
        }
    }
}

impl From<Unit> for u8 {
    ghost use Rattle.times.specs.Units.{unit_number};

    ghost from_gives = { λ unit number. (number ≡ unit_number unit) × (number < 4) };

    fn from(unit: Unit) -> u8 {
        unit as u8
    }
}
