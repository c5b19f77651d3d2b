// Reading and writing are each other's way back.
#![tactic(auto)]

ghost use Rattle.std.specs.Prelude.{◌≡◌};
ghost use Rattle.roundtrip.specs.Trips.{ReadWritten, WrittenRead};

pub mod trips;

// What the writer accepts is read as it was, and what the reader accepts is written as it was, reserved bits apart.
pub fn trips_agree() -> u8
    ensures answer { result ≡ 0 }
    ensures read { ReadWritten }
    ensures written { WrittenRead }
{
    0
}
