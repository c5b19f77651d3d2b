// Making a queue, and what the radio does with it.
ghost use Rattle.std.specs.Prelude.{All, ◌≡◌, ◌≤◌, [], length, drop, slice_get, IfSome, IfOk};
ghost use Rattle.std.specs.Option.{option_map};
ghost use Rattle.radio_queue.specs.Shorts.{IsShort};
ghost use Rattle.radio_queue.specs.Queues.{viewed, head_of, first_over};

use crate::frame::{FrameView, Head};
use crate::queue::{FRAMES, OCTETS, RadioQueue};
use std::alloc::{AllocError, Global};
use std::collections::VecDeque;

impl RadioQueue {
    // No frames, and storage for as many as can ever wait.
    pub fn new(heap: Global) -> Result<RadioQueue, AllocError>
        ensures empty { IfOk result (λ q. q.frames ≡ []) }
        ensures reserved { IfOk result (λ q. 8 ≤ q.storage) }
    {
        let frames = VecDeque::with_capacity(heap, FRAMES)?;
        Ok(RadioQueue { frames })
    }

    // How many frames wait.
    pub fn len(&self) -> usize
        ensures value { result ≡ length self.now.frames }
        ensures few { result ≤ 8 }
        ensures short { All IsShort self.now.frames }
        ensures reserved { 8 ≤ self.now.storage }
    {
        self.frames.len()
    }

    // The frame that has waited longest.
    pub fn first(&self) -> Option<FrameView<'_>>
        ensures value { option_map viewed result ≡ slice_get self.now.frames 0 }
        ensures short { IfSome result (λ v. length v.packet.now ≤ 1458) }
        ensures few { length self.now.frames ≤ 8 }
        ensures others { All IsShort self.now.frames }
        ensures reserved { 8 ≤ self.now.storage }
    {
        let frame = self.frames.front()?;
        Some(FrameView {
            to: frame.to,
            packet: frame.packet.as_slice(),
        })
    }

    // Takes that frame off, and writes its packet to the front of `out`: an array of the caller's, the rest of which stays.
    pub fn take_first(&mut self, out: &mut [u8; OCTETS]) -> Option<Head>
        ensures value { result ≡ option_map head_of (slice_get self.old.frames 0) }
        ensures frames { self.new.frames ≡ drop 1 self.old.frames }
        ensures packet { out.new ≡ first_over self.old.frames out.old }
        ensures few { length self.new.frames ≤ 8 }
        ensures others { All IsShort self.new.frames }
        ensures reserved { 8 ≤ self.new.storage }
        ensures short { IfSome result (λ h. h.count ≤ 1458) }
        ensures same { self.old.frames ≡ [] → self.new ≡ self.old }
    {
        // It is copied from where it lies: a frame is large to move.
        let first = self.frames.front()?;
        let to = first.to;
        let count = first.packet.len();
        out[..count].copy_from_slice(first.packet.as_slice());
        self.frames.pop_front();
        Some(Head { to, count })
    }
}
