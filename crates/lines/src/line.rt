// One line: what it says, and whether it says anything.
ghost use Rattle.std.specs.Prelude.{◌≡◌};
ghost use Rattle.lines.specs.Lines.{all_blank, content_of, passed_over};

use hex_digits::decode::is_blank;

// A line that is to be answered.
#[derive(Clone, Copy)]
pub struct Line<'a> {
    // From 1 on.
    pub number: u64,
    pub text: &'a [u8],
}

// The line without the line feed at its end, and without one carriage return before that.
pub fn content(line: &[u8]) -> &[u8]
    ensures { result.now ≡ content_of line.now }
{
    match line.strip_suffix(b"\n") {
        Some(text) => text.strip_suffix(b"\r").unwrap_or(text),
        None => line,
    }
}

// Whether a line is a comment or blank, so that it is not answered.
pub fn is_passed_over(text: &[u8]) -> bool
    ensures { result ≡ passed_over text.now }
{
    text.starts_with(b"#") || is_all_blank(text)
}

fn is_all_blank(text: &[u8]) -> bool
    ensures { result ≡ all_blank text.now }
{
    text.iter().all(|b| is_blank(*b))
}
