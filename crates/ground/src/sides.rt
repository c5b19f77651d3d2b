// The two sides of a way: how far north it is from one position to another, and how far east.
ghost use Rattle.std.specs.Prelude.{◌≡◌, ◌≤◌, ◌-ℤ◌, unsigned_abs};
ghost use Rattle.ground.specs.Spans.{north, east, scaled};

use crate::scale::{EQUATOR, EastScale};
use fields::position::Position;

// No side is longer than the largest difference of two 32-bit coordinates, by the equator's scale.
#[derive(Clone, Copy)]
pub(crate) struct Side {
    pub decimetres: u64,
    ghost most: { decimetres ≤ 478029859 },
}

impl Side {
    // The size of a difference by a scale, the fraction dropped.
    fn scaled(scale: EastScale, from: i32, to: i32) -> Side
        ensures { result.decimetres ≡ scaled scale.value (unsigned_abs (from -ℤ to)) }
    {
        let size = (i64::from(from) - i64::from(to)).unsigned_abs();
        Side {
            decimetres: size * u64::from(scale.value()) / 10_000,
        }
    }

    pub fn north(from: Position, to: Position) -> Side
        ensures { result.decimetres ≡ north from to }
    {
        Side::scaled(EQUATOR, from.latitude, to.latitude)
    }

    pub fn east(scale: EastScale, from: Position, to: Position) -> Side
        ensures { result.decimetres ≡ east scale.value from to }
    {
        Side::scaled(scale, from.longitude, to.longitude)
    }
}
