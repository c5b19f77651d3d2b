// At most eight frames of at most 1,458 octets, in storage that is reserved when the queue is made.
use crate::frame::QueuedFrame;
use std::collections::VecDeque;
use std::marker::Model;

pub mod methods;
pub mod sending;

// How many frames can wait.
pub const FRAMES: usize = 8;

// How many octets the packet of each can have.
pub const OCTETS: usize = 1_458;

// In clauses a queue is the frames that wait, the one that has waited longest first, and for how many there is storage.
#[derive(Drop)]
pub struct RadioQueue {
    frames: VecDeque<QueuedFrame>,
}

impl Model for RadioQueue {
    ghost use Rattle.std.specs.Prelude.{◌≤◌, All};
    ghost use Rattle.std.specs.VecDeque.{deque_len, deque_capacity};
    ghost use Rattle.radio_queue.specs.Shorts.{IsShort};
    ghost use Rattle.radio_queue.specs.Waits.{Waiting};

    ghost Value = { Waiting };

    ghost view = { λ q. record { frames = q.frames.items; storage = deque_capacity q.frames } };

    ghost invariant = { λ q. (deque_len q.frames ≤ 8) × (8 ≤ deque_capacity q.frames) × All IsShort q.frames.items };
}
