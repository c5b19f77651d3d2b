// The answer of an accepted call.
use crate::verdict::Verdict;

// A payload that is delivered, as a part of the received octets.
#[derive(Clone, Copy)]
pub struct Delivery {
    pub place: usize,
    pub length: usize,
}

#[derive(Clone, Copy)]
pub struct Answer {
    // How many stations, and how many waiting packets, were let go.
    pub stations_gone: usize,
    pub packets_gone: usize,
    pub delivery: Option<Delivery>,
    pub verdict: Verdict,
    // How many packets wait now.
    pub waiting: usize,
}
