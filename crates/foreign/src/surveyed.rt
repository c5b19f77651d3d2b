// A ground that is a table of distances: from each of four places to each of them. Which place a position is, its latitude
// says. The way back may be longer or shorter.
ghost use Rattle.std.specs.Prelude.{◌≡◌};
ghost use Rattle.foreign.specs.Surveys.{place, surveyed};
ghost use Rattle.std.proofs.Common.{rules};

use fields::position::Position;
use ground::Ground;

#[derive(Clone, Copy)]
pub struct Surveyed {
    // Row by row: from the first place, from the second, and so on.
    pub distances: [u32; 16],
}

fn place_of(position: Position) -> usize
    ensures { result ≡ place position }
{
    (position.latitude.unsigned_abs() % 4) as usize
}

impl Ground for Surveyed {
    ghost span = { λ s p q. surveyed s.distances p q };

    ghost bounded = { Prim.search rules };

    fn distance(&self, from: Position, to: Position) -> u32 {
        self.distances[4 * place_of(from) + place_of(to)].min(999_999_999)
    }
}
