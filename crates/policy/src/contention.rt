// Contention-based forwarding: the more progress over the sender, the shorter the wait.
ghost use Rattle.std.specs.Prelude.{◌≡◌};
ghost use Rattle.policy.specs.Choices.{contention, wait_for};
ghost use Rattle.std.proofs.Common.{rules};

use crate::Policy;
use crate::choice::Choice;

// The longest wait, in ms.
pub const LONGEST: u8 = 100;

// The progress, in dm, from which on the wait is the shortest.
pub const FULL_PROGRESS: u32 = 10_000;

// How long to wait, in ms, at so many decimetres of progress.
pub fn waiting_time(progress: u32) -> u8
    ensures { result ≡ wait_for progress }
{
    if progress > FULL_PROGRESS {
        return 1;
    }
    LONGEST - (99 * progress / FULL_PROGRESS) as u8
}

#[derive(Clone, Copy, Debug)]
pub struct Contention;

impl Policy for Contention {
    ghost choice = { λ _ ours sender _. contention ours sender };

    ghost sound = { Prim.search rules };

    fn choose(&self, ours: u32, sender: Option<u32>, neighbours: &[u32]) -> Choice {
        match sender {
            None => Choice::Wait(LONGEST),
            Some(theirs) if theirs <= ours => Choice::NoProgress,
            Some(theirs) => Choice::Wait(waiting_time(theirs - ours)),
        }
    }
}
