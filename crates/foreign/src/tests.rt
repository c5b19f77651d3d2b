// The forwarding step over a ground, a policy and a link of our own.
use crate::alternating::Alternating;
use crate::patient::Patient;
use crate::surveyed::Surveyed;
use fields::address::Address;
use fields::position::Position;
use forwarding::carried::Carried;
use forwarding::course::Course;
use forwarding::step::Forwarder;
use ground::Ground;
use ground::circle::is_inside;
use location_table::entry::Entry;
use location_table::numbers::RecentNumbers;
use location_table::table::LocationTable;
use policy::greedy::Greedy;
use radio_queue::queue::RadioQueue;
use std::test::Fail;
use times::timestamp::Timestamp;
use vectors::short::ShortPositionVector;

// From place 0 to place 1 it is 5 dm, and 50 dm back. To place 2 it is 90 dm from place 0, 80 from place 1, 20 from place 3.
const HILLS: Surveyed = Surveyed {
    distances: [0, 5, 90, 30, 50, 0, 80, 30, 10, 10, 0, 10, 30, 30, 20, 0],
};

fn place(latitude: i32) -> Position {
    Position {
        latitude,
        longitude: 0,
    }
}

fn station(address: u64, latitude: i32, neighbour: bool) -> Entry {
    Entry {
        vector: ShortPositionVector {
            address: Address { value: address },
            timestamp: Timestamp { millis: 0 },
            position: place(latitude),
        },
        heard: 0,
        neighbour,
        numbers: RecentNumbers {
            values: [0; 8],
            count: 0,
        },
    }
}

// A station at place 1, a nearer one at place 3 that is no neighbour, and one more at place 1.
fn table(rt: &HostRuntime) -> Result<LocationTable, Fail> {
    let mut table = LocationTable::new(rt.alloc())?;
    table.enter(station(0x3c00_0000_0000_0001, 1, true))?;
    table.enter(station(0x3c00_0000_0000_0002, 3, false))?;
    table.enter(station(0x3c00_0000_0000_0003, 1, true))?;
    Ok(table)
}

const COURSE: Course = Course {
    ours: Position {
        latitude: 0,
        longitude: 0,
    },
    sender: None,
    target: Position {
        latitude: 2,
        longitude: 0,
    },
};

fn carried(packet: &[u8]) -> Carried<'_> {
    Carried {
        course: COURSE,
        held: false,
        packet,
    }
}

#[test]
fn the_way_back_is_longer(rt: HostRuntime) {
    assert_eq!(rt; HILLS.distance(place(0), place(1)), 5);
    assert_eq!(rt; HILLS.distance(place(1), place(0)), 50);
    assert!(rt; is_inside(&HILLS, place(0), place(1), 1));
    assert!(rt; !is_inside(&HILLS, place(1), place(0), 1));
}

#[test]
fn every_other_frame_goes_to_the_nearest(rt: HostRuntime) -> Result<(), Fail> {
    let table = table(&rt)?;
    let mut link = Alternating {
        below: RadioQueue::new(rt.alloc())?,
        open: true,
    };
    let forwarder = Forwarder {
        table: &table,
        ground: &HILLS,
        policy: &Greedy,
    };
    let first = forwarder.forward(&carried(b"\x2a"), &mut link);
    let second = forwarder.forward(&carried(b"\x2b"), &mut link);
    let third = forwarder.forward(&carried(b"\x2c"), &mut link);
    assert_eq!(rt; first.number(), 2);
    assert_eq!(rt; second.number(), 7);
    assert_eq!(rt; third.number(), 2);
    assert_eq!(rt; link.below.len(), 2);
    let frame = link.below.first().ok_or("no frame waits")?;
    assert_eq!(rt; frame.to.octets[5], 1);
    assert_eq!(rt; frame.packet, b"\x2a".as_slice());
    Ok(())
}

#[test]
fn the_patient_one_waits(rt: HostRuntime) -> Result<(), Fail> {
    let table = table(&rt)?;
    let mut link = RadioQueue::new(rt.alloc())?;
    let forwarder = Forwarder {
        table: &table,
        ground: &HILLS,
        policy: &Patient,
    };
    let verdict = forwarder.forward(&carried(b"\x2a"), &mut link);
    assert_eq!(rt; verdict.number(), 3);
    assert_eq!(rt; link.len(), 0);
    Ok(())
}
