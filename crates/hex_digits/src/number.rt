// Numbers in hexadecimal digits.
ghost use Rattle.std.specs.Prelude.{◌≡◌, ◌^◌, ◌<◌, ◌≤◌, IfSome};
ghost use Rattle.hex_digits.specs.Hex.{number_of};

use crate::decode::digit;

// Two names over one function: a trait of the two types would have these two bodies, and say no more.

// The number of 1 to 16 digits; none for any other text.
pub fn u64_of(text: &[u8]) -> Option<u64>
    ensures { result ≡ number_of 16 text.now }
{
    number(text, 16)
}

// The number of 1 to 8 digits; none for any other text.
pub fn u32_of(text: &[u8]) -> Option<u32>
    ensures { result ≡ number_of 8 text.now }
{
    number(text, 8).map(|n| n as u32)
}

// The number of 1 to `most` digits. The loop goes over the digits and counts nothing.
fn number(text: &[u8], most: usize) -> Option<u64>
    requires { most ≤ 16 }
    ensures value { result ≡ number_of most text.now }
    ensures bound { IfSome result (λ n. n < 16 ^ most) }
{
    if text.is_empty() || text.len() > most {
        return None;
    }
    let mut value = 0;
    for b in text {
        value = value * 16 + u64::from(digit(*b)?);
    }
    Some(value)
}
