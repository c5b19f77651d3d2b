// Octets that begin as a packet does.
ghost use Rattle.std.specs.Prelude.{◌≡◌, ◌≤◌, length, OnOk, IfOk, MatchResult};

use fields::traffic_class::TrafficClass;
use fields::upper_protocol::UpperProtocol;
use octets::read::{FromOctets, check_room};
use packets::common::CommonHeader;
use packets::fault::HeaderFault;
use packets::kind::Kind;
use times::lifetime::Lifetime;

// The most octets that a packet has.
const PACKET_LIMIT: usize = 1_458;

// The octets of a packet of this kind, at least the twelve that every packet has.
#[derive(Clone, Copy)]
pub(crate) struct Framed<'a> {
    pub kind: Kind,
    pub octets: &'a [u8],
    ghost front: { 12 ≤ length octets.now },
}

impl<'a> Framed<'a> {
    ghost use Rattle.packets.specs.Common.{common_of};
    ghost use Rattle.packets.specs.Kinds.{headers_of};
    ghost use Rattle.packets.specs.Reading.{framing, lengths};

    // Refusals 2 to 5: the number of octets, version, next header, kind.
    pub fn new(octets: &'a [u8]) -> Result<Framed<'a>, HeaderFault>
        ensures framing { MatchResult result (λ f. framing octets.now ≡ Ok f.kind) (λ e. framing octets.now ≡ Err e) }
        ensures same { IfOk result (λ f. f.octets.now ≡ octets.now) }
    {
        check_room(octets, 0, 12)?;
        if octets.len() > PACKET_LIMIT {
            return Err(HeaderFault::TooLong);
        }
        if octets[0] / 16 != 1 {
            return Err(HeaderFault::Version);
        }
        if octets[0] % 16 != 1 {
            return Err(HeaderFault::NextHeader);
        }
        let kind = Kind::try_from(octets[5])?;
        Ok(Framed { kind, octets })
    }

    // Refusal 6: the octets are headers and payload, and there is not too much payload.
    pub fn check_lengths(&self) -> Result<(), HeaderFault>
        ensures value { result ≡ lengths self.now.kind self.now.octets.now }
        ensures bound { OnOk result (headers_of self.now.kind ≤ length self.now.octets.now) }
    {
        let payload = usize::from(u16::read(self.octets, 8)?);
        let count = self.octets.len();
        if count != self.kind.header_count() + payload || payload > self.kind.payload_limit() {
            return Err(HeaderFault::PayloadLength);
        }
        Ok(())
    }

    // The first twelve octets.
    pub fn common(&self) -> CommonHeader
        ensures { result ≡ common_of self.now.octets.now }
    {
        let octets = self.octets;
        CommonHeader {
            lifetime: Lifetime { octet: octets[2] },
            remaining_hop_limit: octets[3],
            maximum_hop_limit: octets[10],
            upper_protocol: UpperProtocol::from_octet(octets[4]),
            traffic_class: TrafficClass { octet: octets[6] },
            mobile: octets[7] >= 128,
        }
    }
}
