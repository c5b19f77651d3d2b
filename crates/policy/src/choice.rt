// What a policy says.
#[derive(Clone, Copy, Debug, PartialEq, Eq)]
pub enum Choice {
    // The neighbour at this index, counted from 0, carries it on.
    Neighbour(usize),
    // It waits for so many ms.
    Wait(u8),
    // The sender was as near to the target as we are: it ends here.
    NoProgress,
    // No neighbour is nearer to the target than we are.
    Nobody,
}
