// A text cut into words, at spaces and tabs.
ghost use Rattle.std.specs.Prelude.{◌≡◌, ◌<◌, not, length, position, IfSome};
ghost use Rattle.std.specs.Iterator.{YieldsFirstRef, item_count};
ghost use Rattle.hex_digits.specs.Hex.{blank};
ghost use Rattle.request.specs.Cuts.{words_of};

use hex_digits::decode::is_blank;

// The words of a text, one after another.
#[derive(Clone, Copy)]
pub struct Words<'a>(pub &'a [u8]);

impl<'a> Iterator for Words<'a> {
    type Item = &'a [u8];

    ghost next_gives = { λ text word rest. YieldsFirstRef (λ s. words_of s.0.now) text word rest × IfSome word (λ _. length rest.0.now < length text.0.now) };

    ghost remaining = { item_count (λ s. words_of s.0.now) };

    fn next(&mut self) -> Option<&'a [u8]> {
        let (_, begun) = self.0.split_at(word_start(self.0)?);
        let (word, rest) = begun.split_at(word_end(begun).unwrap_or(begun.len()));
        self.0 = rest;
        Some(word)
    }
}

// The place of the first octet that is not blank.
fn word_start(text: &[u8]) -> Option<usize>
    ensures { result ≡ position (λ b. not (blank b)) text.now }
{
    text.iter().position(|b| !is_blank(*b))
}

// The place of the first octet that is blank.
fn word_end(text: &[u8]) -> Option<usize>
    ensures { result ≡ position blank text.now }
{
    text.iter().position(|b| is_blank(*b))
}
