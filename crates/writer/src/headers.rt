// The headers, written from the front of the octets on.
ghost use Rattle.std.specs.Prelude.{◌≡◌, ◌-◌, OnOk};
ghost use Rattle.octets.specs.Faults.{room_at};
ghost use Rattle.octets.specs.Wire.{put_at};
ghost use Rattle.packets.specs.Common.{front_octets, common_octets};
ghost use Rattle.packets.specs.Contents.{content, kind_in};
ghost use Rattle.packets.specs.Fitting.{Fits};
ghost use Rattle.packets.specs.Kinds.{headers_of};
ghost use Rattle.packets.specs.Writing.{extended_octets};

use octets::fault::OctetFault;
use octets::read::check_room;
use octets::write::{ToOctets, put_part};
use packets::common::CommonHeader;
use packets::kind::Kind;
use packets::packet::Packet;

// The first twelve octets.
pub(crate) fn put_common(
    octets: &mut [u8],
    kind: Kind,
    payload: u16,
    common: &CommonHeader,
) -> Result<(), OctetFault>
    ensures value { result ≡ room_at 12 0 octets.old }
    ensures after { octets.new ≡ put_at 12 0 (common_octets kind payload common.now) octets.old }
{
    check_room(octets, 0, 12)?;
    let front = front_octets(kind, common);
    put_part(octets, 0, &front)?;
    payload.write(octets, 8)?;
    put_part(octets, 10, &[common.maximum_hop_limit, 0])?;
    Ok(())
}

// The octets before the payload length.
fn front_octets(kind: Kind, common: &CommonHeader) -> [u8; 8]
    ensures { result ≡ front_octets kind common.now }
{
    [
        0x11,
        0,
        common.lifetime.octet,
        common.remaining_hop_limit,
        u8::from(common.upper_protocol) * 16,
        u8::from(kind),
        common.traffic_class.octet,
        if common.mobile { 128 } else { 0 },
    ]
}

// The octets from octet 12 on, up to the payload; two reserved ones follow a sequence number.
pub(crate) fn put_extended(octets: &mut [u8], packet: &Packet) -> Result<(), OctetFault>
    ensures value { result ≡ room_at (headers_of (kind_in (content packet.now).header) - 12) 12 octets.old }
    ensures after { octets.new ≡ put_at (headers_of (kind_in (content packet.now).header) - 12) 12 (extended_octets (content packet.now).header) octets.old }
    ensures fits { OnOk result (Fits (content packet.now).header) }
{
    match packet {
        Packet::Beacon(h, _) => h.source.write(octets, 12),
        Packet::Unicast(h, _) => {
            let vectors = (h.source, h.destination);
            (h.number.value, (0u16, vectors)).write(octets, 12)
        }
        Packet::Anycast(h, _) | Packet::Broadcast(h, _) => {
            let vectors = (h.source, h.area);
            (h.number.value, (0u16, vectors)).write(octets, 12)
        }
        Packet::SingleHop(h, _) => (h.source, h.media).write(octets, 12),
        Packet::MultiHop(h, _) => (h.number.value, (0u16, h.source)).write(octets, 12),
    }
}
