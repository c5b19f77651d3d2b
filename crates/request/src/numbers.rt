// Decimal numbers, as they are written in a request.
ghost use Rattle.std.specs.Prelude.{◌≡◌, ℕ, List, Option};
ghost use Rattle.std.specs.Result.{result_ok};
ghost use Rattle.request.specs.Numbers.{unsigned_in, signed_in, flag_in};
ghost use Rattle.request.specs.Parsed.{unsigned_read, signed_read};
ghost use Rattle.std.proofs.Common.{w16, w32};

use std::num::ParseIntError;
use std::str::FromStr;

// The types of such numbers.
pub trait Number: FromStr<Err = ParseIntError> {
    // The number that a text is, if it is one.
    ghost number_in: { List ℕ → Option Self };

    // What `parse` answers is that number.
    ghost parsed: { (text : List ℕ) (r : _) → Self.from_str_gives text r → result_ok r ≡ number_in text };
}

impl Number for u8 {
    ghost number_in = { unsigned_in 8 };

    ghost parsed = { λ text r h. unsigned_read 8 text r h.0 };
}

impl Number for u16 {
    ghost number_in = { unsigned_in 16 };

    ghost parsed = { λ text r h. unsigned_read 16 text r h.0 };
}

impl Number for u32 {
    ghost number_in = { unsigned_in 32 };

    ghost parsed = { λ text r h. unsigned_read 32 text r h.0 };
}

impl Number for i16 {
    ghost number_in = { signed_in 15 };

    ghost parsed = { λ text r h. signed_read w16 text r h.0 };
}

impl Number for i32 {
    ghost number_in = { signed_in 31 };

    ghost parsed = { λ text r h. signed_read w32 text r h.0 };
}

// None, if the text is no number or too large a one.
pub fn number_in<N: Number>(text: &str) -> Option<N>
    ensures { result ≡ N.number_in text.now }
{
    text.parse::<N>().ok()
}

// A flag is 0 or 1.
pub fn flag_in(text: &str) -> Option<bool>
    ensures { result ≡ flag_in text.now }
{
    match number_in::<u8>(text)? {
        0 => Some(false),
        1 => Some(true),
        _ => None,
    }
}
