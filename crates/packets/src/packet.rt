// A packet: the record of its kind, and its payload, which stays where it is.
ghost use Rattle.std.specs.Prelude.{◌≡◌};
ghost use Rattle.packets.specs.Contents.{content, kind_in, common_in, source_in};

use crate::common::CommonHeader;
use crate::headers::{AreaHeader, BeaconHeader, MultiHopHeader, SingleHopHeader, UnicastHeader};
use crate::kind::Kind;
use vectors::long::LongPositionVector;

#[derive(Clone, Copy)]
pub enum Packet<'a> {
    Beacon(BeaconHeader, &'a [u8]),
    Unicast(UnicastHeader, &'a [u8]),
    Anycast(AreaHeader, &'a [u8]),
    Broadcast(AreaHeader, &'a [u8]),
    SingleHop(SingleHopHeader, &'a [u8]),
    MultiHop(MultiHopHeader, &'a [u8]),
}

impl<'a> Packet<'a> {
    pub fn kind(&self) -> Kind
        ensures { result ≡ kind_in (content self.now).header }
    {
        match self {
            Packet::Beacon(_, _) => Kind::Beacon,
            Packet::Unicast(_, _) => Kind::Unicast,
            Packet::Anycast(_, _) => Kind::Anycast,
            Packet::Broadcast(_, _) => Kind::Broadcast,
            Packet::SingleHop(_, _) => Kind::SingleHop,
            Packet::MultiHop(_, _) => Kind::MultiHop,
        }
    }

    pub fn common(&self) -> CommonHeader
        ensures { result ≡ common_in (content self.now).header }
    {
        match self {
            Packet::Beacon(h, _) => h.common,
            Packet::Unicast(h, _) => h.common,
            Packet::Anycast(h, _) => h.common,
            Packet::Broadcast(h, _) => h.common,
            Packet::SingleHop(h, _) => h.common,
            Packet::MultiHop(h, _) => h.common,
        }
    }

    pub fn source(&self) -> LongPositionVector
        ensures { result ≡ source_in (content self.now).header }
    {
        match self {
            Packet::Beacon(h, _) => h.source,
            Packet::Unicast(h, _) => h.source,
            Packet::Anycast(h, _) => h.source,
            Packet::Broadcast(h, _) => h.source,
            Packet::SingleHop(h, _) => h.source,
            Packet::MultiHop(h, _) => h.source,
        }
    }

    pub fn payload(&self) -> &'a [u8]
        ensures { result.now ≡ (content self.now).payload }
    {
        match self {
            Packet::Beacon(_, payload) => payload,
            Packet::Unicast(_, payload) => payload,
            Packet::Anycast(_, payload) => payload,
            Packet::Broadcast(_, payload) => payload,
            Packet::SingleHop(_, payload) => payload,
            Packet::MultiHop(_, payload) => payload,
        }
    }
}
