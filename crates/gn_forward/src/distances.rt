// The distances of a situation, by one ground.
use arrayvec::ArrayVec;
use location_table::table::entering::STATIONS;

// All in decimetres, to the target.
#[derive(Drop)]
pub struct Distances {
    pub ours: u32,
    // None, if the sender is unknown.
    pub sender: Option<u32>,
    // The neighbours', in table order.
    pub near: ArrayVec<u32, STATIONS>,
    // Whether we are inside the circle round the target.
    pub inside: bool,
}
