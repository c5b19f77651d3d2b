// The packet that some octets are.
ghost use Rattle.std.specs.Prelude.{◌≡◌, ◌≤◌, length, drop};
ghost use Rattle.packets.specs.Contents.{content_in};
ghost use Rattle.packets.specs.Reading.{reading};

use crate::checks::check_limits;
use crate::framed::Framed;
use packets::fault::HeaderFault;
use packets::kind::Kind;
use packets::packet::Packet;

// The packet, with its payload as a part of the octets; or the first refusal that fits.
pub fn read<'a>(octets: &'a [u8]) -> Result<Packet<'a>, HeaderFault>
    ensures { content_in result ≡ reading octets.now }
{
    let framed = Framed::new(octets)?;
    framed.check_lengths()?;
    check_limits(framed.kind, &framed.common())?;
    let payload = payload_part(octets, framed.kind.header_count());
    match framed.kind {
        Kind::Beacon => Ok(Packet::Beacon(framed.beacon()?, payload)),
        Kind::Unicast => Ok(Packet::Unicast(framed.unicast()?, payload)),
        Kind::Anycast => Ok(Packet::Anycast(framed.area()?, payload)),
        Kind::Broadcast => Ok(Packet::Broadcast(framed.area()?, payload)),
        Kind::SingleHop => Ok(Packet::SingleHop(framed.single_hop()?, payload)),
        Kind::MultiHop => Ok(Packet::MultiHop(framed.multi_hop()?, payload)),
    }
}

// What follows the headers.
fn payload_part(octets: &[u8], headers: usize) -> &[u8]
    requires { headers ≤ length octets.now }
    ensures { result.now ≡ drop headers octets.now }
{
    &octets[headers..]
}
