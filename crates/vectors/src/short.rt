// The short position vector: 20 octets.
ghost use Rattle.vectors.specs.Vectors.{short_vector_at, short_vector_octets, length-short_vector_octets, ShortFits};

use fields::address::Address;
use fields::position::Position;
use octets::fault::OctetFault;
use octets::read::FromOctets;
use octets::write::ToOctets;
use times::timestamp::Timestamp;

// Where a station was, and when.
#[derive(Clone, Copy, Debug, Default, PartialEq, Eq)]
pub struct ShortPositionVector {
    pub address: Address,
    pub timestamp: Timestamp,
    pub position: Position,
}

impl FromOctets for ShortPositionVector {
    ghost reading = { short_vector_at };

    // The vector in the 20 octets from `at` on.
    fn read(octets: &[u8], at: usize) -> Result<ShortPositionVector, OctetFault> {
        let address = u64::read(octets, at)?;
        let timestamp = u32::read(octets, at + 8)?;
        let position = Position::read(octets, at + 12)?;
        Ok(ShortPositionVector {
            address: Address { value: address },
            timestamp: Timestamp { millis: timestamp },
            position,
        })
    }
}

impl ToOctets for ShortPositionVector {
    ghost WIDTH = { 20 };

    ghost written = { short_vector_octets };

    ghost Fits = { ShortFits };

    ghost full = { length-short_vector_octets };

    fn width() -> usize {
        20
    }

    fn write(&self, octets: &mut [u8], at: usize) -> Result<(), OctetFault> {
        let times = (self.timestamp.millis, self.position);
        (self.address.value, times).write(octets, at)
    }
}
