// The line of a frame, written behind a text that has room for it.
ghost use Rattle.std.specs.Prelude.{◌≡◌, ◌+◌, ◌*◌, ◌<◌, ◌≤◌, [], ◌∷◌, ◌++◌, length, vec_len, vec_capacity};
ghost use Rattle.link.specs.Frames.{frame};
ghost use Rattle.text_link.specs.Texts.{digit, digits, line_of, lines, decoded};

use link::address::LinkAddress;

// The octets of a line besides the digits of the packet: the digits of the address, the comma and the line feed.
pub(crate) const LINE_OVERHEAD: usize = 14;

// A lower-case hexadecimal digit. By hand: char::from_digit answers an Option of a char, to be unwrapped and cast.
fn digit_of(n: u8) -> u8
    requires { n < 16 }
    ensures { result ≡ digit n }
{
    if n < 10 { b'0' + n } else { b'a' + (n - 10) }
}

// Writes two digits for each octet. Not by Hex of hex_digits: a format may fail where memory is short, and this never does.
pub(crate) fn put_hex(text: &mut Vec<u8>, octets: &[u8])
    requires { vec_len text.old + 2 * length octets.now ≤ vec_capacity text.old }
    ensures items { text.new.items ≡ text.old.items ++ digits octets.now }
    ensures len { vec_len text.new ≡ vec_len text.old + 2 * length octets.now }
    ensures capacity { vec_capacity text.new ≡ vec_capacity text.old }
{
    for octet in octets {
        text.push_reserved(digit_of(*octet / 16));
        text.push_reserved(digit_of(*octet % 16));
    }
}

// Writes the line of a frame. A text that is the lines of its frames then says this frame behind them.
pub(crate) fn put_line(text: &mut Vec<u8>, to: LinkAddress, packet: &[u8])
    requires { vec_len text.old + (14 + 2 * length packet.now) ≤ vec_capacity text.old }
    ensures items { text.new.items ≡ text.old.items ++ line_of (frame to packet.now) }
    ensures frames { lines (decoded text.old.items) ≡ text.old.items → decoded text.new.items ≡ decoded text.old.items ++ frame to packet.now ∷ [] }
    ensures len { vec_len text.new ≡ vec_len text.old + (14 + 2 * length packet.now) }
    ensures capacity { vec_capacity text.new ≡ vec_capacity text.old }
{
    put_hex(text, &to.octets);
    text.push_reserved(b',');
    put_hex(text, packet);
    text.push_reserved(b'\n');
}
