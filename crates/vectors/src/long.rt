// The long position vector: 24 octets, the first 20 of them a short one.
ghost use Rattle.vectors.specs.Vectors.{long_vector_at, long_vector_octets, length-long_vector_octets, LongFits};

use crate::short::ShortPositionVector;
use fields::motion::Motion;
use octets::fault::OctetFault;
use octets::read::FromOctets;
use octets::write::ToOctets;

// Where a station was, when, and how it moved; the heading is in tenths of a degree.
#[derive(Clone, Copy, Debug, Default, PartialEq, Eq)]
pub struct LongPositionVector {
    pub short: ShortPositionVector,
    pub motion: Motion,
    pub heading: u16,
}

impl FromOctets for LongPositionVector {
    ghost reading = { long_vector_at };

    // The vector in the 24 octets from `at` on.
    fn read(octets: &[u8], at: usize) -> Result<LongPositionVector, OctetFault> {
        let short = ShortPositionVector::read(octets, at)?;
        let motion = u16::read(octets, at + 20)?;
        let heading = u16::read(octets, at + 22)?;
        Ok(LongPositionVector {
            short,
            motion: Motion { bits: motion },
            heading,
        })
    }
}

impl ToOctets for LongPositionVector {
    ghost WIDTH = { 24 };

    ghost written = { long_vector_octets };

    ghost Fits = { LongFits };

    ghost full = { length-long_vector_octets };

    fn width() -> usize {
        24
    }

    fn write(&self, octets: &mut [u8], at: usize) -> Result<(), OctetFault> {
        (self.short, (self.motion.bits, self.heading)).write(octets, at)
    }
}
