// The lifetime octet: a multiplier in the high six bits, a unit in the low two.
ghost use Rattle.std.specs.Prelude.{◌≡◌};
ghost use Rattle.times.specs.Lifetimes.{lifetime_of, Best, BestIn};
ghost use Rattle.times.specs.Units.{unit_number};

use crate::unit::Unit;

#[derive(Clone, Copy, Debug, Default, PartialEq, Eq)]
pub struct Lifetime {
    pub octet: u8,
}

impl Lifetime {
    // How long a packet with this lifetime lives.
    #[tactic(auto, unfolding(crate::specs::Lifetimes::lifetime_of))]
    pub fn millis(self) -> u32
        ensures { result ≡ lifetime_of self.octet }
    {
        u32::from(self.octet / 4) * Unit::of(self.octet).millis()
    }

    // The greatest lifetime that is not above `remaining`; of equals, the one with the smallest unit.
    pub fn for_remaining(remaining: u64) -> Lifetime
        ensures { Best remaining result.octet }
    {
        let mut best = Lifetime { octet: 0 };
        for unit in &Unit::ALL {
            let longest = Lifetime::in_unit(*unit, remaining);
            if longest.millis() > best.millis() {
                best = longest;
            }
        }
        best
    }

    // The greatest lifetime of one unit that is not above `remaining`.
    fn in_unit(unit: Unit, remaining: u64) -> Lifetime
        ensures { BestIn (unit_number unit) remaining result.octet }
    {
        let most = remaining / u64::from(unit.millis());
        Lifetime {
            octet: most.min(63) as u8 * 4 + u8::from(unit),
        }
    }
}
