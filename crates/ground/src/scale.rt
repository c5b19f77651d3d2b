// The east scale: ten-thousandths of a decimetre in a tenth of a microdegree of longitude, at most the equator's.
pub mod checked;

ghost use Rattle.std.specs.Prelude.{◌≡◌, ◌<◌, ◌≤◌, MatchResult};
ghost use Rattle.ground.specs.declared.fault.GroundFault.TheVariants.{ScaleTooLarge};

use crate::fault::GroundFault;

// A ghost field and no Model: the law of grounds asks for the bound of every value.
#[derive(Clone, Copy)]
pub struct EastScale {
    value: u16,
    ghost most: { value ≤ 1113 },
}

// The equator's scale, and that of every way north.
pub const EQUATOR: EastScale = EastScale { value: LARGEST };

const LARGEST: u16 = checked::EQUATOR;

// Refuses a number above 1,113.
impl TryFrom<u16> for EastScale {
    type Error = GroundFault;

    ghost try_from_gives = { λ value r. MatchResult r (λ s. (s.value ≡ value) × (value ≤ 1113)) (λ e. (e ≡ ScaleTooLarge) × (1113 < value)) };

    fn try_from(value: u16) -> Result<EastScale, GroundFault> {
        if value > LARGEST {
            return Err(GroundFault::ScaleTooLarge);
        }
        Ok(EastScale { value })
    }
}

impl EastScale {
    pub fn value(self) -> u16
        ensures value { result ≡ self.value }
        ensures most { result ≤ 1113 }
    {
        self.value
    }
}
