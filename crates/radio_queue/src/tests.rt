// Frames sent and taken.
use crate::frame::Head;
use crate::queue::RadioQueue;
use link::Link;
use link::address::{BROADCAST, LinkAddress};
use link::space::NoSpace;
use std::test::Fail;

const STATION: LinkAddress = LinkAddress {
    octets: [0x00, 0x44, 0x6d, 0x57, 0x11, 0x3c],
};

#[test]
fn the_ninth_frame_waits_for_a_place(rt: HostRuntime) -> Result<(), Fail> {
    let mut queue = RadioQueue::new(rt.alloc())?;
    for octet in 0..8 {
        queue.send(BROADCAST, &[octet])?;
    }
    assert_eq!(rt; queue.send(STATION, b"\x08"), Err(NoSpace));
    assert_eq!(rt; queue.len(), 8);
    let mut out = [0; 1458];
    assert!(rt; queue.take_first(&mut out).is_some());
    queue.send(STATION, b"\x08")?;
    assert_eq!(rt; queue.len(), 8);
    Ok(())
}

#[test]
fn frames_come_in_the_order_of_sending(rt: HostRuntime) -> Result<(), Fail> {
    let mut queue = RadioQueue::new(rt.alloc())?;
    queue.send(STATION, b"\xc0\xff\xee")?;
    queue.send(BROADCAST, b"\x2a")?;
    let mut out = [7; 1458];
    let head = queue.take_first(&mut out);
    assert_eq!(rt;
        head,
        Some(Head {
            to: STATION,
            count: 3,
        })
    );
    assert_eq!(rt; &out[0..4], b"\xc0\xff\xee\x07".as_slice());
    let head = queue.take_first(&mut out);
    assert_eq!(rt;
        head,
        Some(Head {
            to: BROADCAST,
            count: 1,
        })
    );
    assert_eq!(rt; &out[0..4], b"\x2a\xff\xee\x07".as_slice());
    assert_eq!(rt; queue.take_first(&mut out), None);
    Ok(())
}

#[test]
fn a_packet_has_at_most_1458_octets(rt: HostRuntime) -> Result<(), Fail> {
    let mut queue = RadioQueue::new(rt.alloc())?;
    assert_eq!(rt; queue.send(BROADCAST, &[5; 1459]), Err(NoSpace));
    queue.send(BROADCAST, &[5; 1458])?;
    assert_eq!(rt; queue.first().ok_or("no frame")?.packet.len(), 1458);
    Ok(())
}
