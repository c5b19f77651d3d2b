// What is refused before anything is written.
ghost use Rattle.std.specs.Prelude.{◌≡◌};
ghost use Rattle.packets.specs.Contents.{content};
ghost use Rattle.packets.specs.Writing.{target_fits, checked};

use packets::fault::WriteFault;
use packets::packet::Packet;

// Refusals 7, 8, 9 and 12: hop limits, lifetime, positions, payload.
pub(crate) fn check_packet(packet: &Packet) -> Result<(), WriteFault>
    ensures { result ≡ checked (content packet.now) }
{
    let kind = packet.kind();
    let common = packet.common();
    if !common.hop_limits_fit(kind) {
        return Err(WriteFault::HopLimit);
    }
    if !common.lifetime_fits() {
        return Err(WriteFault::Lifetime);
    }
    if !packet.source().short.position.is_on_earth() || !target_fits(packet) {
        return Err(WriteFault::Position);
    }
    if packet.payload().len() > kind.payload_limit() {
        return Err(WriteFault::Payload);
    }
    Ok(())
}

// Whether the destination or the centre, if there is one, is on the earth.
fn target_fits(packet: &Packet) -> bool
    ensures { result ≡ target_fits (content packet.now).header }
{
    match packet {
        Packet::Unicast(h, _) => h.destination.position.is_on_earth(),
        Packet::Anycast(h, _) | Packet::Broadcast(h, _) => h.area.centre.is_on_earth(),
        Packet::Beacon(_, _) | Packet::SingleHop(_, _) | Packet::MultiHop(_, _) => true,
    }
}
