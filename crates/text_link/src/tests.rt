// Frames sent, and their text.
use crate::text::TextLink;
use link::Link;
use link::address::{BROADCAST, LinkAddress};
use link::space::NoSpace;
use std::test::Fail;

const STATION: LinkAddress = LinkAddress {
    octets: [0x00, 0x44, 0x6d, 0x57, 0x11, 0x3c],
};

#[test]
fn a_frame_is_a_line(rt: HostRuntime) -> Result<(), Fail> {
    let mut link = TextLink::new(rt.alloc(), 20)?;
    link.send(STATION, b"\xc0\xff\xee")?;
    assert_eq!(rt; link.text(), b"00446d57113c,c0ffee\n".as_slice());
    Ok(())
}

#[test]
fn a_line_has_to_fit(rt: HostRuntime) -> Result<(), Fail> {
    let mut link = TextLink::new(rt.alloc(), 19)?;
    assert_eq!(rt; link.send(STATION, b"\xc0\xff\xee"), Err(NoSpace));
    assert_eq!(rt; link.text(), b"".as_slice());
    Ok(())
}

#[test]
fn frames_are_lines_one_after_another(rt: HostRuntime) -> Result<(), Fail> {
    let mut link = TextLink::new(rt.alloc(), 100)?;
    link.send(STATION, b"\x0a")?;
    link.send(BROADCAST, b"")?;
    assert_eq!(rt; link.text(), b"00446d57113c,0a\nffffffffffff,\n".as_slice());
    Ok(())
}
