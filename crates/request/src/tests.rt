// Words taken, and what they set.
use crate::asked::Request;
use crate::cut::Words;
use crate::fault::LineFault;
use crate::numbers::number_in;
use crate::take::{take_octets, take_word, take_words};
use packets::kind::Kind;
use std::test::Fail;

#[test]
fn words_are_set_in_turn(rt: HostRuntime) -> Result<(), Fail> {
    let mut request = Request::new(rt.alloc(), Kind::SingleHop);
    take_words(
        &mut request,
        rt.alloc(),
        Words(b" rhl=7\tpayload=c0ffee  rhl=8 "),
    )?;
    take_octets(&mut request, rt.alloc(), b"mhl=9")?;
    take_word(&mut request, rt.alloc(), "media=c0ffee01")?;
    assert_eq!(rt; request.payload.as_slice(), b"\xc0\xff\xee".as_slice());
    assert_eq!(rt; request.fields.common.remaining_hop_limit, 8);
    assert_eq!(rt; request.fields.common.maximum_hop_limit, 9);
    assert_eq!(rt; request.fields.media, 0xc0ff_ee01);
    Ok(())
}

#[test]
fn a_word_that_is_refused_ends_the_line(rt: HostRuntime) -> Result<(), Fail> {
    let mut request = Request::new(rt.alloc(), Kind::Beacon);
    let answer = take_words(&mut request, rt.alloc(), Words(b"rhl=1 rhl rhl=2"));
    assert_eq!(rt; answer, Err(LineFault::NotUnderstood));
    assert_eq!(rt; request.fields.common.remaining_hop_limit, 1);
    Ok(())
}

#[test]
fn numbers_fit_their_types(rt: HostRuntime) {
    assert_eq!(rt; number_in::<u8>("255"), Some(255));
    assert_eq!(rt; number_in::<u8>("256"), None);
    assert_eq!(rt; number_in::<u16>("65535"), Some(65_535));
    assert_eq!(rt; number_in::<u32>("+4294967295"), Some(4_294_967_295));
    assert_eq!(rt; number_in::<i16>("-32768"), Some(-32_768));
    assert_eq!(rt; number_in::<i16>("32768"), None);
    assert_eq!(rt; number_in::<i32>("-2147483647"), Some(-2_147_483_647));
}
