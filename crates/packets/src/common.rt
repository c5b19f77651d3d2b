// The fields that every packet has, from the basic and the common header.
ghost use Rattle.std.specs.Prelude.{◌≡◌};
ghost use Rattle.packets.specs.Common.{hop_limits_fit, lifetime_fits};

use crate::kind::Kind;
use fields::traffic_class::TrafficClass;
use fields::upper_protocol::UpperProtocol;
use times::lifetime::Lifetime;

#[derive(Clone, Copy, Debug, Default, PartialEq, Eq)]
pub struct CommonHeader {
    pub lifetime: Lifetime,
    pub remaining_hop_limit: u8,
    pub maximum_hop_limit: u8,
    pub upper_protocol: UpperProtocol,
    pub traffic_class: TrafficClass,
    pub mobile: bool,
}

impl CommonHeader {
    // Whether the packet may still make a hop, no more than it might at first, and only one if its kind goes one hop.
    pub fn hop_limits_fit(&self, kind: Kind) -> bool
        ensures { result ≡ hop_limits_fit kind self.now }
    {
        let hops = self.remaining_hop_limit;
        match kind {
            Kind::Beacon | Kind::SingleHop => hops == 1 && hops <= self.maximum_hop_limit,
            _ => hops >= 1 && hops <= self.maximum_hop_limit,
        }
    }

    // Whether the lifetime multiplier is above 0.
    pub fn lifetime_fits(&self) -> bool
        ensures { result ≡ lifetime_fits self.now }
    {
        self.lifetime.octet >= 4
    }
}
