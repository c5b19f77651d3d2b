// The verdicts of the steps.
use forwarding::verdict::Verdict;

// Over one ground, with one policy.
#[derive(Clone, Copy)]
pub struct LinkVerdicts {
    pub queue: Verdict,
    pub text: Verdict,
}

// Over one ground.
#[derive(Clone, Copy)]
pub struct GroundVerdicts {
    pub greedy: LinkVerdicts,
    pub contention: LinkVerdicts,
}

// Of one time that the step is done everywhere.
#[derive(Clone, Copy)]
pub struct RoundVerdicts {
    pub flat: GroundVerdicts,
    pub street: GroundVerdicts,
}
