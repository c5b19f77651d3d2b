// A packet that is to be sent.
use fields::address::Address;
use packets::common::CommonHeader;
use vectors::area::Area;

// Its kind, with what only that kind has.
#[derive(Clone, Copy)]
pub enum Body {
    Beacon,
    // To the station with this address.
    Unicast(Address),
    Anycast(Area),
    Broadcast(Area),
    // With these media-dependent data.
    SingleHop(u32),
    MultiHop,
}

// The payload is handed over beside it.
#[derive(Clone, Copy)]
pub struct Request {
    pub common: CommonHeader,
    pub body: Body,
}
