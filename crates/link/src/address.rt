// The link address of a station, or of all of them.
ghost use Rattle.std.specs.Prelude.{◌≡◌};
ghost use Rattle.link.specs.Addresses.{link_address};

use fields::address::Address;

#[derive(Clone, Copy, Debug, PartialEq, Eq)]
pub struct LinkAddress {
    pub octets: [u8; 6],
}

// Everybody's address.
pub const BROADCAST: LinkAddress = LinkAddress { octets: [255; 6] };

// The last six octets of a station's address.
impl From<Address> for LinkAddress {
    ghost from_gives = { λ address link. link ≡ link_address address };

    #[tactic(auto, using(crate::proofs::Sixes::last_six))]
    fn from(address: Address) -> LinkAddress {
        let [_, _, a, b, c, d, e, f] = address.value.to_be_bytes();
        LinkAddress {
            octets: [a, b, c, d, e, f],
        }
    }
}
