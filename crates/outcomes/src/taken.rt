// The packet that some octets are.
use packets::packet::Packet;

#[derive(Clone, Copy)]
pub struct Taken<'a> {
    pub packet: Packet<'a>,
    // How many octets they are.
    pub count: usize,
    // Whether the writer makes the same octets of the packet.
    pub same: bool,
}
