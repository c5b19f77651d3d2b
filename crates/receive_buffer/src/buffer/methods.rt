// Filling the buffer, and lending the packet in it.
ghost use Rattle.std.specs.Prelude.{◌≡◌, [], is_ok, if◌then◌else◌};
ghost use Rattle.octets.specs.Wire.{placed};
ghost use Rattle.packets.specs.Contents.{content_in};
ghost use Rattle.packets.specs.Reading.{reading};
ghost use Rattle.receive_buffer.specs.Buffers.{received, filling};

use crate::buffer::ReceiveBuffer;
use octets::write::put_part;
use packets::fault::HeaderFault;
use packets::packet::Packet;
use reader::read::read;

impl ReceiveBuffer {
    // An empty buffer.
    pub fn new() -> ReceiveBuffer
        ensures { received result ≡ [] }
    {
        ReceiveBuffer {
            octets: [0; 1458],
            count: 0,
        }
    }

    // Holds these octets in place of the old ones. More than fit are refused, and the buffer stays as it was.
    #[tactic(auto, unfolding(octets::specs::Wire::placed))]
    pub fn fill(&mut self, octets: &[u8]) -> Result<(), HeaderFault>
        ensures value { result ≡ filling octets.now }
        ensures after { received self.new ≡ (if is_ok result then octets.now else received self.old) }
        ensures behind { self.new.octets ≡ (if is_ok result then placed 0 octets.now self.old.octets else self.old.octets) }
    {
        if octets.len() > self.octets.len() {
            return Err(HeaderFault::TooLong);
        }
        put_part(&mut self.octets, 0, octets)?;
        self.count = octets.len();
        Ok(())
    }

    // What was received last.
    pub fn octets(&self) -> &[u8]
        ensures { result.now ≡ received self.now }
    {
        &self.octets[0..self.count]
    }

    // The packet in what was received last. Its payload is a part of the buffer, which cannot be filled while that part
    // is in use.
    pub fn packet(&self) -> Result<Packet<'_>, HeaderFault>
        ensures { content_in result ≡ reading (received self.now) }
    {
        read(self.octets())
    }
}
