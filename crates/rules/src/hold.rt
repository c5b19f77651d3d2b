// What a packet waits for.
#[derive(Clone, Copy)]
pub enum Hold {
    // That so many ms have passed since it was taken.
    Millis(u8),
    // A neighbour that is nearer to its target than we are.
    Neighbour,
}
