// Greedy forwarding: the neighbour with the smallest distance, the first of equals, if it is below ours.
ghost use Rattle.std.specs.Prelude.{◌≡◌};
ghost use Rattle.policy.specs.Choices.{greedy, Smallest};
ghost use Rattle.policy.specs.Smallests.{greedy_sound};

use crate::Policy;
use crate::choice::Choice;

#[derive(Clone, Copy, Debug)]
pub struct Greedy;

impl Policy for Greedy {
    ghost choice = { λ _ ours _ near. greedy ours near };

    ghost sound = { λ s ours sender near. greedy_sound ours sender near };

    fn choose(&self, ours: u32, sender: Option<u32>, neighbours: &[u32]) -> Choice
        ensures value { result ≡ greedy ours neighbours.now }
        ensures smallest { Smallest ours neighbours.now result }
    {
        let mut best = ours;
        let mut choice = Choice::Nobody;
        // A loop that keeps the best so far and no min_by_key: a rule of the project.
        for (index, &distance) in neighbours.iter().enumerate() {
            if distance < best {
                best = distance;
                choice = Choice::Neighbour(index);
            }
        }
        choice
    }
}
