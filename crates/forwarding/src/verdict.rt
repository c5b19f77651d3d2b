// What became of a packet that was to be carried on.
ghost use Rattle.std.specs.Prelude.{◌≡◌};
ghost use Rattle.forwarding.specs.Verdicts.{number};

use link::address::LinkAddress;

#[derive(Clone, Copy, Debug, PartialEq, Eq)]
pub enum Verdict {
    // It went to everybody.
    Broadcast,
    // It went to the neighbour with this link address.
    Unicast(LinkAddress),
    // It is to wait for so many ms.
    Wait(u8),
    // It is to be held until a neighbour can carry it on.
    Hold,
    // The sender was not farther from the target than we are, and it ends here.
    NoProgress,
    // There was no space on the link.
    NoSpace,
}

impl Verdict {
    // A method and no From: a verdict says more than its number.
    pub fn number(self) -> u8
        ensures { result ≡ number self }
    {
        match self {
            Verdict::Broadcast => 1,
            Verdict::Unicast(_) => 2,
            Verdict::Wait(_) => 3,
            Verdict::Hold => 4,
            Verdict::NoProgress => 6,
            Verdict::NoSpace => 7,
        }
    }
}
