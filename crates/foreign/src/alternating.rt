// A link over another one that has space every other time.
ghost use Rattle.std.specs.Prelude.{◌≡◌, not, ◌&&◌, length};
ghost use Rattle.link.specs.Frames.{frame, sent, joined};

use link::Link;
use link::address::LinkAddress;
use link::space::NoSpace;

#[derive(Drop)]
pub struct Alternating<L> {
    pub below: L,
    // Whether the next send is one that may succeed.
    pub open: bool,
}

impl<L: Link> Link for Alternating<L> {
    ghost frames = { λ s. L.Link.frames s.below };

    ghost space = { λ s n. s.open && L.Link.space s.below n };

    fn has_space(&self, count: usize) -> bool {
        self.open && self.below.has_space(count)
    }

    fn send(&mut self, to: LinkAddress, packet: &[u8]) -> Result<(), NoSpace>
        ensures value { result ≡ sent (self.old.open && L.Link.space self.old.below (length packet.now)) }
        ensures frames { L.Link.frames self.new.below ≡ joined (self.old.open && L.Link.space self.old.below (length packet.now)) (frame to packet.now) (L.Link.frames self.old.below) }
        ensures turns { self.new.open ≡ not self.old.open }
    {
        self.open = !self.open;
        if self.open {
            return Err(NoSpace);
        }
        self.below.send(to, packet)
    }
}
