// What a request asks for.
use fields::sequence_number::SequenceNumber;
use packets::common::CommonHeader;
use packets::kind::Kind;
use vectors::area::Area;
use vectors::long::LongPositionVector;
use vectors::short::ShortPositionVector;

// Every field that a packet of some kind has, but for the payload.
#[derive(Clone, Copy, Default)]
pub struct Fields {
    pub common: CommonHeader,
    pub number: SequenceNumber,
    pub source: LongPositionVector,
    pub destination: ShortPositionVector,
    pub area: Area,
    pub media: u32,
}

#[derive(Drop)]
pub struct Request {
    pub kind: Kind,
    pub fields: Fields,
    pub payload: Vec<u8>,
}
