// The packet that was asked for.
ghost use Rattle.std.specs.Prelude.{◌≡◌, ◌≤◌, take, is_ok, IfOk, if◌then◌else◌, Ok};
ghost use Rattle.octets.specs.Wire.{placed};
ghost use Rattle.packets.specs.Contents.{content};
ghost use Rattle.packets.specs.Reading.{reading};
ghost use Rattle.packets.specs.Writing.{wire, writing};
ghost use Rattle.request.specs.Requests.{packet_in};

use crate::asked::{Fields, Request};
use packets::fault::WriteFault;
use packets::headers::{AreaHeader, BeaconHeader, MultiHopHeader, SingleHopHeader, UnicastHeader};
use packets::kind::Kind;
use packets::packet::Packet;
use roundtrip::trips::write_readable;

// Writes the packet that was asked for over the front of the buffer, and answers how many octets it has; or the first
// refusal that fits, and then the whole buffer stays. What was written is read as the packet that was asked for.
// The buffer is the writer's, an array of the caller's.
pub fn write_request(request: &Request, buffer: &mut [u8; 1458]) -> Result<usize, WriteFault>
    ensures value { result ≡ writing (packet_in request.now) }
    ensures after { buffer.new ≡ (if is_ok result then placed 0 (wire (packet_in request.now)) buffer.old else buffer.old) }
    ensures bound { IfOk result (λ count. count ≤ 1458) }
    ensures again { IfOk result (λ count. reading (take count buffer.new) ≡ Ok (packet_in request.now)) }
{
    write_readable(&request.packet(), buffer)
}

impl Request {
    // The packet of the kind, from the fields that the kind has.
    fn packet(&self) -> Packet<'_>
        ensures { content result ≡ packet_in self.now }
    {
        let payload = self.payload.as_slice();
        let common = self.fields.common;
        let number = self.fields.number;
        let source = self.fields.source;
        match self.kind {
            Kind::Beacon => Packet::Beacon(BeaconHeader { common, source }, payload),
            Kind::Unicast => Packet::Unicast(self.fields.unicast_header(), payload),
            Kind::Anycast => Packet::Anycast(self.fields.area_header(), payload),
            Kind::Broadcast => Packet::Broadcast(self.fields.area_header(), payload),
            Kind::SingleHop => {
                let media = self.fields.media;
                let header = SingleHopHeader {
                    common,
                    source,
                    media,
                };
                Packet::SingleHop(header, payload)
            }
            Kind::MultiHop => {
                let header = MultiHopHeader {
                    common,
                    number,
                    source,
                };
                Packet::MultiHop(header, payload)
            }
        }
    }
}

// The two differ in their last field, and stay two: each calls it by its own name.
impl Fields {
    fn unicast_header(&self) -> UnicastHeader
        ensures common { result.common ≡ self.now.common }
        ensures number { result.number ≡ self.now.number }
        ensures source { result.source ≡ self.now.source }
        ensures destination { result.destination ≡ self.now.destination }
    {
        UnicastHeader {
            common: self.common,
            number: self.number,
            source: self.source,
            destination: self.destination,
        }
    }

    fn area_header(&self) -> AreaHeader
        ensures common { result.common ≡ self.now.common }
        ensures number { result.number ≡ self.now.number }
        ensures source { result.source ≡ self.now.source }
        ensures area { result.area ≡ self.now.area }
    {
        AreaHeader {
            common: self.common,
            number: self.number,
            source: self.source,
            area: self.area,
        }
    }
}
