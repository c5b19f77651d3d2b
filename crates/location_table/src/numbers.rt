// The last eight sequence numbers of a station.
// An array with a count, and no ArrayVec: an entry is Copy, which an ArrayVec is not, and any count may be given.
#[derive(Clone, Copy, Debug, Default, PartialEq, Eq)]
pub struct RecentNumbers {
    // The oldest first; those from `count` on say nothing.
    pub values: [u16; 8],
    pub count: usize,
}
