// Policies: who is to carry a packet on.
#![tactic(auto)]

pub mod choice;
pub mod contention;
pub mod greedy;

ghost use Rattle.std.specs.Prelude.{◌≡◌, ℕ, List, Option};
ghost use Rattle.policy.specs.declared.choice.Choice.{Choice};
ghost use Rattle.policy.specs.Choices.{Sound};

use choice::Choice;

pub trait Policy {
    // What it says to our distance, the sender's if known, and the neighbours' in table order: to the same question the
    // same, always.
    ghost choice: { Self → ℕ → Option ℕ → List ℕ → Choice };

    // Three parameters and no struct: they are the one question of the trait, and asked in one place.
    fn choose(&self, ours: u32, sender: Option<u32>, neighbours: &[u32]) -> Choice
        ensures { result ≡ choice self.now ours sender neighbours.now };

    ghost sound: { (s : Self) (ours : ℕ) (sender : Option ℕ) (near : List ℕ) → Sound ours sender near (choice s ours sender near) };
}
