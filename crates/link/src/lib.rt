// Links: anything that has a list of frames, each a link address and the octets of a packet.
#![tactic(auto)]

pub mod address;
pub mod space;

ghost use Rattle.std.specs.Prelude.{◌≡◌, ℕ, Bool, List, length};
ghost use Rattle.link.specs.Frames.{Frame, frame, sent, joined};

use address::LinkAddress;
use space::NoSpace;

pub trait Link {
    ghost frames: { Self → List Frame };

    // Whether there is space for a packet of so many octets.
    ghost space: { Self → ℕ → Bool };

    fn has_space(&self, count: usize) -> bool
        ensures { result ≡ space self.now count };

    // Puts the frame last, exactly if there is space for its packet.
    fn send(&mut self, to: LinkAddress, packet: &[u8]) -> Result<(), NoSpace>
        ensures value { result ≡ sent (space self.old (length packet.now)) }
        ensures frames { frames self.new ≡ joined (space self.old (length packet.now)) (frame to packet.now) (frames self.old) };
}
