// Where a packet is, where it came from, and where it is to go.
ghost use Rattle.std.specs.Prelude.{◌≡◌};
ghost use Rattle.forwarding.specs.Questions.{sender_distance};

use fields::position::Position;
use ground::Ground;

#[derive(Clone, Copy, Default)]
pub struct Course {
    // Our position.
    pub ours: Position,
    // The position of the station that sent it to us, if that is known.
    pub sender: Option<Position>,
    pub target: Position,
}

impl Course {
    // How far the sender is from the target, if its position is known.
    pub fn sender_distance<G: Ground>(self, ground: &G) -> Option<u32>
        ensures { result ≡ sender_distance (G.span ground.now) self }
    {
        self.sender
            .map(|position| ground.distance(position, self.target))
    }
}
