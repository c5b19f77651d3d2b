// Room for the longest packet, and how much of it is in use.
ghost use Rattle.std.specs.Prelude.{◌≤◌};

pub mod methods;

// An array with a count and no ArrayVec: filling promises that the octets behind the count stay.
#[derive(Drop)]
pub struct ReceiveBuffer {
    octets: [u8; 1458],
    count: usize,
    ghost within: { count ≤ 1458 },
}
