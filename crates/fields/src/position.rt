// A position: latitude and longitude in tenths of a microdegree.
ghost use Rattle.std.specs.Prelude.{⊤, ◌≡◌};
ghost use Rattle.fields.specs.Positions.{on_earth, position_at, position_octets, length-position_octets};

use octets::fault::OctetFault;
use octets::read::{FromOctets, coordinate_at};
use octets::write::ToOctets;

// The sizes of the greatest latitude and the greatest longitude, either way.
pub const LATITUDE_LIMIT: u32 = 900_000_000;

pub const LONGITUDE_LIMIT: u32 = 1_800_000_000;

#[derive(Clone, Copy, Debug, Default, PartialEq, Eq)]
pub struct Position {
    pub latitude: i32,
    pub longitude: i32,
}

impl Position {
    // Whether both coordinates are within their range.
    pub fn is_on_earth(self) -> bool
        ensures { result ≡ on_earth self }
    {
        self.latitude.unsigned_abs() <= LATITUDE_LIMIT
            && self.longitude.unsigned_abs() <= LONGITUDE_LIMIT
    }
}

impl FromOctets for Position {
    ghost reading = { position_at };

    // The latitude at `at` and the longitude behind it, each within its range.
    fn read(octets: &[u8], at: usize) -> Result<Position, OctetFault> {
        let latitude = coordinate_at(octets, at, LATITUDE_LIMIT)?;
        let longitude = coordinate_at(octets, at + 4, LONGITUDE_LIMIT)?;
        Ok(Position {
            latitude,
            longitude,
        })
    }
}

impl ToOctets for Position {
    ghost WIDTH = { 8 };

    ghost written = { position_octets };

    ghost Fits = { λ _. ⊤ };

    ghost full = { length-position_octets };

    fn width() -> usize {
        8
    }

    // The latitude and behind it the longitude, whatever they are.
    fn write(&self, octets: &mut [u8], at: usize) -> Result<(), OctetFault> {
        (self.latitude, self.longitude).write(octets, at)
    }
}
