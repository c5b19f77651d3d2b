// The traffic class octet.
ghost use Rattle.std.specs.Prelude.{◌≡◌, nat_le};

#[derive(Clone, Copy, Debug, Default, PartialEq, Eq)]
pub struct TrafficClass {
    pub octet: u8,
}

impl TrafficClass {
    // Whether the packet may be carried until a neighbour can take it on: the top bit.
    pub fn store_carry_forward(self) -> bool
        ensures { result ≡ nat_le 128 self.octet }
    {
        self.octet >= 128
    }
}
