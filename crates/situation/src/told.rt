// What a line tells.
use forwarding::course::Course;
use location_table::table::LocationTable;

// Every field, but for the stations and the packet.
#[derive(Clone, Copy)]
pub struct Fields {
    // The east scale of both grounds, which may be too large for one.
    pub scale: u16,
    pub course: Course,
    // The radius of a circle round the target, in metres.
    pub radius: u16,
    // Whether the packet has store-carry-forward.
    pub held: bool,
    // The size of the text link's buffer.
    pub room: u16,
    // How often the step is done.
    pub times: u8,
}

#[derive(Drop)]
pub struct Situation {
    pub fields: Fields,
    pub table: LocationTable,
    pub packet: Vec<u8>,
}
