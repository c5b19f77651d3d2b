// Circles on any ground.
ghost use Rattle.std.specs.Prelude.{◌≡◌};
ghost use Rattle.ground.specs.Spans.{inside};

use crate::Ground;
use fields::position::Position;

// Whether a position is inside the circle of so many metres round a centre.
pub fn is_inside<G: Ground>(ground: &G, position: Position, centre: Position, radius: u16) -> bool
    ensures { result ≡ inside (G.span ground.now position centre) radius }
{
    ground.distance(position, centre) <= 10 * u32::from(radius)
}
