// One record for each kind of packet; anycast and broadcast share theirs.
use crate::common::CommonHeader;
use fields::sequence_number::SequenceNumber;
use vectors::area::Area;
use vectors::long::LongPositionVector;
use vectors::short::ShortPositionVector;

#[derive(Clone, Copy)]
pub struct BeaconHeader {
    pub common: CommonHeader,
    pub source: LongPositionVector,
}

#[derive(Clone, Copy)]
pub struct UnicastHeader {
    pub common: CommonHeader,
    pub number: SequenceNumber,
    pub source: LongPositionVector,
    pub destination: ShortPositionVector,
}

#[derive(Clone, Copy)]
pub struct AreaHeader {
    pub common: CommonHeader,
    pub number: SequenceNumber,
    pub source: LongPositionVector,
    pub area: Area,
}

// The media-dependent data are four octets that only the access layer understands.
#[derive(Clone, Copy)]
pub struct SingleHopHeader {
    pub common: CommonHeader,
    pub source: LongPositionVector,
    pub media: u32,
}

#[derive(Clone, Copy)]
pub struct MultiHopHeader {
    pub common: CommonHeader,
    pub number: SequenceNumber,
    pub source: LongPositionVector,
}
