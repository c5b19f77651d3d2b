// The number that a source gives to each packet of a numbered kind.
#[derive(Clone, Copy, Debug, Default, PartialEq, Eq)]
pub struct SequenceNumber {
    pub value: u16,
}
