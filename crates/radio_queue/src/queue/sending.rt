// The queue as a link.
ghost use Rattle.std.specs.Prelude.{All, ◌≡◌, ◌≤◌, false, length};
ghost use Rattle.link.specs.Frames.{frame, sent, joined};
ghost use Rattle.radio_queue.specs.Shorts.{IsShort};
ghost use Rattle.radio_queue.specs.Queues.{has_space};

use crate::frame::QueuedFrame;
use crate::queue::{FRAMES, OCTETS, RadioQueue};
use arrayvec::ArrayVec;
use link::Link;
use link::address::LinkAddress;
use link::space::NoSpace;

impl Link for RadioQueue {
    ghost frames = { λ q. q.frames };

    ghost space = { has_space };

    fn has_space(&self, count: usize) -> bool
        ensures value { result ≡ has_space self.now count }
        ensures few { length self.now.frames ≤ 8 }
        ensures short { All IsShort self.now.frames }
        ensures reserved { 8 ≤ self.now.storage }
    {
        self.len() < FRAMES && count <= OCTETS
    }

    // The frame takes no memory that is not there. It is filled before it is moved, once.
    fn send(&mut self, to: LinkAddress, packet: &[u8]) -> Result<(), NoSpace>
        ensures value { result ≡ sent (has_space self.old (length packet.now)) }
        ensures frames { self.new.frames ≡ joined (has_space self.old (length packet.now)) (frame to packet.now) self.old.frames }
        ensures few { length self.new.frames ≤ 8 }
        ensures short { All IsShort self.new.frames }
        ensures reserved { 8 ≤ self.new.storage }
        ensures same { has_space self.old (length packet.now) ≡ false → self.new ≡ self.old }
    {
        if !self.has_space(packet.len()) {
            return Err(NoSpace);
        }
        let mut queued = QueuedFrame {
            to,
            packet: ArrayVec::new(),
        };
        queued.packet.try_extend_from_slice(packet).unwrap();
        self.frames.push_back_reserved(queued);
        Ok(())
    }
}
