// An entry of the location table: one station.
use crate::numbers::RecentNumbers;
use vectors::short::ShortPositionVector;

#[derive(Clone, Copy)]
pub struct Entry {
    // Its address, and its newest position and timestamp.
    pub vector: ShortPositionVector,
    // When it was heard last, in ms.
    pub heard: u64,
    // Whether it was heard directly.
    pub neighbour: bool,
    pub numbers: RecentNumbers,
}
