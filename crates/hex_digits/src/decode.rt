// From hexadecimal digits to octets.
ghost use Rattle.std.specs.Prelude.{◌≡◌, ◌<◌, IfSome, IfOk, IsErrOf, Some, None, vec_items};
ghost use Rattle.hex_digits.specs.Hex.{digit_of, decoded, blank};

use crate::fault::HexFault;
use std::alloc::Global;

// The value of a digit, upper or lower case.
pub fn digit(b: u8) -> Option<u8>
    ensures value { result ≡ digit_of b }
    ensures bound { IfSome result (λ d. d < 16) }
{
    let value = char::from(b).to_digit(16)?;
    Some(value as u8)
}

// A space or a tab.
pub fn is_blank(b: u8) -> bool
    ensures { result ≡ blank b }
{
    matches!(b, b' ' | b'\t')
}

// The octets of a text, two digits for each. Spaces and tabs are passed over; another character, or an odd number of
// digits, is refused.
pub fn decode(heap: Global, text: &[u8]) -> Result<Vec<u8>, HexFault>
    ensures ok { IfOk result (λ octets. decoded text.now ≡ Some (vec_items octets)) }
    ensures not_octets { IsErrOf result HexFault.NotOctets → decoded text.now ≡ None }
{
    let mut octets = Vec::new(heap);
    let mut high = None;
    for b in text {
        if is_blank(*b) {
            continue;
        }
        let low = digit(*b).ok_or(HexFault::NotOctets)?;
        high = match high {
            None => Some(low),
            Some(high) => {
                octets.push(high * 16 + low)?;
                None
            }
        };
    }
    match high {
        None => Ok(octets),
        Some(_) => Err(HexFault::NotOctets),
    }
}
