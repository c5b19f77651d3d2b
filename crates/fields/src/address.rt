// The GeoNetworking address of a station.
#[derive(Clone, Copy, Debug, Default, PartialEq, Eq)]
pub struct Address {
    pub value: u64,
}
