// Timestamps: milliseconds modulo 2^32, so that they wrap after some 49 days.
ghost use Rattle.std.specs.Prelude.{◌≡◌};
ghost use Rattle.times.specs.Timestamps.{newer};

#[derive(Clone, Copy, Debug, Default, PartialEq, Eq)]
pub struct Timestamp {
    pub millis: u32,
}

impl Timestamp {
    // Whether this timestamp lies in the half of the circle that follows `other`.
    pub fn is_newer_than(self, other: Timestamp) -> bool
        ensures { result ≡ newer self.millis other.millis }
    {
        let ahead = self.millis.wrapping_sub(other.millis);
        1 <= ahead && ahead < 0x8000_0000
    }
}
