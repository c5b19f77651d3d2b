// What the number of a scale is checked against.

// The number of the equator's scale, and of that of every way north.
pub const EQUATOR: u16 = 1_113;
