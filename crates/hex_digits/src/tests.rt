// Octets there and back.
use crate::decode::decode;
use crate::fault::HexFault;
use std::test::Fail;

#[test]
fn blanks_are_passed_over(rt: HostRuntime) -> Result<(), Fail> {
    let octets = decode(rt.alloc(), b" c0 F\tf ee")?;
    assert_eq!(rt; octets.as_slice(), b"\xc0\xff\xee".as_slice());
    Ok(())
}

#[test]
fn an_odd_digit_is_no_octet(rt: HostRuntime) -> Result<(), Fail> {
    assert_eq!(rt; decode(rt.alloc(), b"c0f").err(), Some(HexFault::NotOctets));
    Ok(())
}

#[test]
fn another_character_is_no_digit(rt: HostRuntime) -> Result<(), Fail> {
    assert_eq!(rt;
        decode(rt.alloc(), b"c0fg").err(),
        Some(HexFault::NotOctets)
    );
    Ok(())
}
