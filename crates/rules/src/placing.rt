// Where the box is told to be.
use fields::position::Position;

#[derive(Clone, Copy)]
pub struct Placing {
    pub position: Position,
    // In 0.01 m/s.
    pub speed: i32,
    // In tenths of a degree.
    pub heading: u16,
    pub accurate: bool,
}
