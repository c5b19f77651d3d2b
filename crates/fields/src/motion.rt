// The motion field: the accuracy flag above a speed in 0.01 m/s, a signed number of 15 bits.
ghost use Rattle.std.specs.Prelude.{◌≡◌};
ghost use Rattle.fields.specs.Motions.{accurate_in, speed_in, motion_from};

// Sixteen bits, one for the flag and fifteen for the speed, so that neither has a value beyond its own.
// Not a flag beside a speed that keeps its range: then `read(octets)?` does not prove in a function that has a `&mut` too.
#[derive(Clone, Copy, Debug, Default, PartialEq, Eq)]
pub struct Motion {
    pub bits: u16,
}

impl Motion {
    // This flag and this speed, from -16,384 to 16,383; none for any other speed.
    pub fn new(accurate: bool, speed: i16) -> Option<Motion>
        ensures { result ≡ motion_from accurate speed }
    {
        if speed < -16_384 || speed > 16_383 {
            return None;
        }
        let low = if speed < 0 {
            (speed + 16_384) as u16 + 16_384
        } else {
            speed as u16
        };
        let bits = if accurate { 32_768 + low } else { low };
        Some(Motion { bits })
    }

    // The accuracy flag: the top bit.
    pub fn accurate(self) -> bool
        ensures { result ≡ accurate_in self.bits }
    {
        self.bits >= 32_768
    }

    // The speed: the low fifteen bits, signed.
    pub fn speed(self) -> i16
        ensures { result ≡ speed_in self.bits }
    {
        let low = (self.bits % 32_768) as i16;
        if low < 16_384 {
            low
        } else {
            low - 16_384 - 16_384
        }
    }
}
