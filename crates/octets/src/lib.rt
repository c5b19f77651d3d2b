// Octets on the air: numbers in big-endian order, at any place of a slice.
#![tactic(auto)]

ghost use Rattle.std.specs.Prelude.{◌≡◌};
ghost use Rattle.octets.specs.Laws.{ReadWritten, WrittenRead, OneOctet};

pub mod fault;
pub mod read;
pub mod write;

// What was written is read, and what was read, written again, is what was there: at every width and every place.
// An octet is a field of width one.
pub fn widths_agree() -> u8
    ensures answer { result ≡ 0 }
    ensures read { ReadWritten }
    ensures written { WrittenRead }
    ensures one { OneOctet }
{
    0
}
