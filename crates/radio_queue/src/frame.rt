// A frame of the queue: as it lies there, without its octets, and as a view.
use crate::queue::OCTETS;
use arrayvec::ArrayVec;
use link::address::LinkAddress;
use std::marker::Model;

// As it lies in the queue. In clauses it is the frame.
#[derive(Drop)]
pub(crate) struct QueuedFrame {
    pub to: LinkAddress,
    pub packet: ArrayVec<u8, OCTETS>,
}

impl Model for QueuedFrame {
    ghost use Rattle.link.specs.Frames.{Frame, frame};

    ghost Value = { Frame };

    ghost view = { λ q. frame q.to q.packet.items };
}

// Where it goes, and how many octets its packet has.
#[derive(Clone, Copy, Debug, PartialEq, Eq)]
pub struct Head {
    pub to: LinkAddress,
    pub count: usize,
}

// Where it goes, and its packet, which stays in the queue.
#[derive(Clone, Copy)]
pub struct FrameView<'a> {
    pub to: LinkAddress,
    pub packet: &'a [u8],
}
