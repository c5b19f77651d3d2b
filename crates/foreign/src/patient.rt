// A policy that always waits 7 ms.
ghost use Rattle.policy.specs.declared.choice.Choice.TheVariants.{Wait};
ghost use Rattle.std.proofs.Common.{rules};

use policy::Policy;
use policy::choice::Choice;

#[derive(Clone, Copy)]
pub struct Patient;

impl Policy for Patient {
    ghost choice = { λ _ _ _ _. Wait 7 };

    ghost sound = { Prim.search rules };

    fn choose(&self, ours: u32, sender: Option<u32>, neighbours: &[u32]) -> Choice {
        Choice::Wait(7)
    }
}
