// The street ground: north, and then east. It has a scale as the flat ground has, and no more than that is alike.
ghost use Rattle.ground.specs.Spans.{along};
ghost use Rattle.ground.specs.Bounds.{along-most};

use crate::Ground;
use crate::scale::EastScale;
use crate::sides::Side;
use fields::position::Position;

#[derive(Clone, Copy)]
pub struct Street {
    pub scale: EastScale,
}

impl Ground for Street {
    ghost span = { λ s p q. along s.scale.value p q };

    ghost bounded = { λ s p q wp wq. along-most s.scale.value s.scale.most p q wp wq };

    fn distance(&self, from: Position, to: Position) -> u32 {
        let north = Side::north(from, to);
        let east = Side::east(self.scale, from, to);
        (north.decimetres + east.decimetres) as u32
    }
}
