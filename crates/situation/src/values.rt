// Positions and stations, with commas between their parts. By functions: the types are of other crates.
ghost use Rattle.std.specs.Prelude.{◌≡◌};
ghost use Rattle.situation.specs.Values.{position_in, station_in, station_from};

use crate::halves::halves;
use fields::address::Address;
use fields::position::Position;
use hex_digits::number::u64_of;
use location_table::entry::Entry;
use location_table::numbers::RecentNumbers;
use request::numbers::{flag_in, number_in};
use times::timestamp::Timestamp;
use vectors::short::ShortPositionVector;

// A latitude and a longitude.
pub fn position_in(text: &str) -> Option<Position>
    ensures { result ≡ position_in text.now }
{
    let (latitude, longitude) = halves(text, ',')?;
    Some(Position {
        latitude: number_in(latitude)?,
        longitude: number_in(longitude)?,
    })
}

// An address, a latitude, a longitude and a mark: 1 for a neighbour, 0 for another station.
pub fn station_in(text: &str) -> Option<Entry>
    ensures { result ≡ station_in text.now }
{
    let (address, place) = halves(text, ',')?;
    let (latitude, behind) = halves(place, ',')?;
    let (longitude, mark) = halves(behind, ',')?;
    let address = Address {
        value: u64_of(address.as_bytes())?,
    };
    let position = Position {
        latitude: number_in(latitude)?,
        longitude: number_in(longitude)?,
    };
    Some(station(address, position, flag_in(mark)?))
}

// A station that was heard at no time that is told.
fn station(address: Address, position: Position, neighbour: bool) -> Entry
    ensures { result ≡ station_from address position neighbour }
{
    Entry {
        vector: ShortPositionVector {
            address,
            timestamp: Timestamp::default(),
            position,
        },
        heard: 0,
        neighbour,
        numbers: RecentNumbers::default(),
    }
}
