// The octets of a packet.
ghost use Rattle.std.specs.Prelude.{◌≡◌, ◌+◌, ◌<◌, ◌≤◌, length, is_ok, IfOk, OnOk, if◌then◌else◌};
ghost use Rattle.octets.specs.Faults.{room_at};
ghost use Rattle.octets.specs.Wire.{placed, put_at};
ghost use Rattle.packets.specs.Contents.{content, kind_in};
ghost use Rattle.packets.specs.Fitting.{Fits};
ghost use Rattle.packets.specs.Kinds.{headers_of};
ghost use Rattle.packets.specs.Writing.{wire, writing};

use crate::checks::check_packet;
use crate::headers::{put_common, put_extended};
use octets::fault::OctetFault;
use octets::read::check_room;
use octets::write::put_part;
use packets::fault::WriteFault;
use packets::packet::Packet;

// Writes the packet over the front of the buffer, leaves the rest, and answers how many octets it has; or the first
// refusal that fits, and then the whole buffer stays. An array of the caller's and a count: no memory is asked for.
pub fn write(packet: &Packet, buffer: &mut [u8; 1458]) -> Result<usize, WriteFault>
    ensures value { result ≡ writing (content packet.now) }
    ensures after { buffer.new ≡ (if is_ok result then placed 0 (wire (content packet.now)) buffer.old else buffer.old) }
    ensures bound { IfOk result (λ count. count ≤ 1458) }
    ensures fits { OnOk result (Fits (content packet.now).header) }
{
    check_packet(packet)?;
    let count = packet.kind().header_count() + packet.payload().len();
    put_packet(buffer, packet, count).unwrap();
    Ok(count)
}

// Writes the `count` octets of the packet.
fn put_packet(octets: &mut [u8], packet: &Packet, count: usize) -> Result<(), OctetFault>
    requires { (length (content packet.now).payload < 65536) × (count ≡ headers_of (kind_in (content packet.now).header) + length (content packet.now).payload) }
    ensures value { result ≡ room_at count 0 octets.old }
    ensures after { octets.new ≡ put_at count 0 (wire (content packet.now)) octets.old }
    ensures fits { OnOk result (Fits (content packet.now).header) }
{
    check_room(octets, 0, count)?;
    let kind = packet.kind();
    let payload = packet.payload();
    let common = packet.common();
    put_common(octets, kind, payload.len() as u16, &common)?;
    put_extended(octets, packet)?;
    put_part(octets, kind.header_count(), payload)?;
    Ok(())
}
