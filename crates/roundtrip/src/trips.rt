// The two ways, as a program goes them.
ghost use Rattle.std.specs.Prelude.{◌≡◌, ◌≤◌, take, is_ok, IfOk, if◌then◌else◌, Ok};
ghost use Rattle.octets.specs.Wire.{placed};
ghost use Rattle.packets.specs.Contents.{content};
ghost use Rattle.packets.specs.Reading.{reading};
ghost use Rattle.packets.specs.Writing.{wire, writing};
ghost use Rattle.roundtrip.specs.Called.{Rewritten};

use packets::fault::{HeaderFault, WriteFault};
use packets::packet::Packet;
use reader::read::read;
use writer::write::write;

// Reads a packet and writes it over the front of the buffer. The octets are those that were read, if their reserved
// bits are 0. A refused packet leaves the buffer as it was. The buffer is the writer's, an array of the caller's.
pub fn rewrite(octets: &[u8], buffer: &mut [u8; 1458]) -> Result<usize, HeaderFault>
    ensures { Rewritten octets.now buffer.old buffer.new result }
{
    let packet = read(octets)?;
    Ok(write(&packet, buffer).unwrap())
}

// Writes a packet as the writer does, into the writer's buffer; what then stands in its front is read as the same packet.
pub fn write_readable(packet: &Packet, buffer: &mut [u8; 1458]) -> Result<usize, WriteFault>
    ensures value { result ≡ writing (content packet.now) }
    ensures after { buffer.new ≡ (if is_ok result then placed 0 (wire (content packet.now)) buffer.old else buffer.old) }
    ensures bound { IfOk result (λ count. count ≤ 1458) }
    ensures again { IfOk result (λ count. reading (take count buffer.new) ≡ Ok (content packet.now)) }
{
    write(packet, buffer)
}
