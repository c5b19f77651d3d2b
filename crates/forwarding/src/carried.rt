// A packet that is to be carried on.
ghost use Rattle.std.specs.Prelude.{◌≡◌, length};
ghost use Rattle.link.specs.Frames.{frame, joined};
ghost use Rattle.forwarding.specs.Verdicts.{spaced};

use crate::course::Course;
use crate::verdict::Verdict;
use link::Link;
use link::address::LinkAddress;

#[derive(Clone, Copy)]
pub struct Carried<'a> {
    pub course: Course,
    // Whether it has store-carry-forward.
    pub held: bool,
    pub packet: &'a [u8],
}

impl Carried<'_> {
    // Puts the packet on the link, with this verdict if there is space for it.
    pub(crate) fn put_out<L: Link>(
        &self,
        link: &mut L,
        to: LinkAddress,
        verdict: Verdict,
    ) -> Verdict
        ensures value { result ≡ spaced (L.space link.old (length self.now.packet.now)) verdict }
        ensures frames { L.frames link.new ≡ joined (L.space link.old (length self.now.packet.now)) (frame to self.now.packet.now) (L.frames link.old) }
    {
        link.send(to, self.packet)
            .map_or(Verdict::NoSpace, |()| verdict)
    }
}
