// A buffer filled, read, and filled again.
use crate::buffer::ReceiveBuffer;
use octets::fault::Fault;
use packets::kind::Kind;
use std::test::Fail;

// A single-hop packet with three octets of payload, and a beacon.
const SINGLE_HOP: &[u8; 43] =
    b"\x11\x00\x50\x01\x20\x50\x02\x00\x00\x03\x01\x00\x3c\x00\x44\x6d\x57\x11\x3c\xad\x52\x5c\x11\xdd\x18\xd4\x08\x88\xfd\x2e\x79\x10\xff\xe9\x00\xe6\x00\x00\x00\x00\xc0\xff\xee";

const BEACON: &[u8; 36] =
    b"\x11\x00\x50\x01\x00\x10\x00\x80\x00\x00\x01\x00\x3c\x00\x44\x6d\x57\x11\x3c\xad\x52\x5c\x11\xdd\x18\xd4\x08\x88\xfd\x2e\x79\x10\xff\xe9\x00\xe6";

#[test]
fn lends_its_payload_and_is_filled_again(rt: HostRuntime) -> Result<(), Fail> {
    let mut buffer = ReceiveBuffer::new();
    buffer.fill(SINGLE_HOP)?;
    let payload = buffer.packet()?.payload();
    assert!(rt; payload.len() == 3);
    assert_eq!(rt; payload[0], 0xc0);
    buffer.fill(BEACON)?;
    assert_eq!(rt; buffer.packet()?.kind(), Kind::Beacon);
    assert_eq!(rt; buffer.octets().len(), 36);
    Ok(())
}

#[test]
fn refuses_more_than_it_holds(rt: HostRuntime) -> Result<(), Fail> {
    let mut buffer = ReceiveBuffer::new();
    buffer.fill(BEACON)?;
    match buffer.fill(&[0; 1459]) {
        Ok(()) => return Err(Fail::new("1459 octets were taken")),
        Err(fault) => {
            assert_eq!(rt; fault.number(), 2);
            assert_eq!(rt; fault.place(), 0);
        }
    }
    assert_eq!(rt; buffer.octets().len(), 36);
    buffer.fill(&[0; 1458])?;
    assert_eq!(rt; buffer.octets().len(), 1458);
    Ok(())
}
