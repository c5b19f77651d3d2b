// What became of a call's packet.
ghost use Rattle.std.specs.Prelude.{◌≡◌};
ghost use Rattle.rules.specs.Verdicts.{number, addressed};

use link::address::{BROADCAST, LinkAddress};

#[derive(Clone, Copy)]
pub enum Verdict {
    // Nothing more was to be done.
    Done,
    // It went to everybody.
    Broadcast,
    // It went to the neighbour with this link address.
    Unicast(LinkAddress),
    // It waits for a time.
    Wait,
    // It is held for a neighbour.
    Hold,
    // It may make no further hop.
    HopLimit,
    // The sender was not farther from the target than we are.
    NoProgress,
    // There was no space on the link.
    NoSpace,
    // There was no place in the waiting line.
    LineFull,
    // It was heard before.
    Duplicate,
    // It was heard before, and our own copy, which waited, will not go out.
    Cancelled,
}

impl Verdict {
    // A method and no From: a verdict says more than its number.
    pub fn number(self) -> u8
        ensures { result ≡ number self }
    {
        match self {
            Verdict::Done => 0,
            Verdict::Broadcast => 1,
            Verdict::Unicast(_) => 2,
            Verdict::Wait => 3,
            Verdict::Hold => 4,
            Verdict::HopLimit => 5,
            Verdict::NoProgress => 6,
            Verdict::NoSpace => 7,
            Verdict::LineFull => 8,
            Verdict::Duplicate => 9,
            Verdict::Cancelled => 10,
        }
    }

    // The link address of the frame that went, and six zeros if none did.
    pub fn link_address(self) -> LinkAddress
        ensures { result ≡ addressed self }
    {
        match self {
            Verdict::Broadcast => BROADCAST,
            Verdict::Unicast(to) => to,
            _ => LinkAddress { octets: [0; 6] },
        }
    }
}
