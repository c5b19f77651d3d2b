// The flat ground: the straight way.
ghost use Rattle.std.specs.Prelude.{◌≡◌, ◌+◌, ◌*◌};
ghost use Rattle.ground.specs.Roots.{Least};
ghost use Rattle.ground.specs.Spans.{north, east, straight};
ghost use Rattle.ground.specs.Bounds.{straight-most};

use crate::Ground;
use crate::root::hypotenuse;
use crate::scale::EastScale;
use crate::sides::Side;
use fields::position::Position;

#[derive(Clone, Copy)]
pub struct Flat {
    pub scale: EastScale,
}

impl Ground for Flat {
    ghost span = { λ s p q. straight s.scale.value p q };

    ghost bounded = { λ s p q wp wq. straight-most s.scale.value s.scale.most p q wp wq };

    fn distance(&self, from: Position, to: Position) -> u32
        ensures value { result ≡ straight self.now.scale.value from to }
        ensures least { Least (north from to * north from to + east self.now.scale.value from to * east self.now.scale.value from to) result }
    {
        let north = Side::north(from, to);
        let east = Side::east(self.scale, from, to);
        hypotenuse(north, east) as u32
    }
}
