// The fields of a packet as types: none of them has a value beyond its bits.
#![tactic(auto)]

ghost use Rattle.std.specs.Prelude.{◌≡◌};
ghost use Rattle.fields.specs.Laws.{MotionRead, MotionWritten, UpperRead, UpperWritten};

pub mod address;
pub mod motion;
pub mod position;
pub mod sequence_number;
pub mod traffic_class;
pub mod upper_protocol;

// The bits of a motion are its flag and its speed, and the number of an upper protocol is its own.
pub fn fields_agree() -> u8
    ensures answer { result ≡ 0 }
    ensures motion_read { MotionRead }
    ensures motion_written { MotionWritten }
    ensures upper_read { UpperRead }
    ensures upper_written { UpperWritten }
{
    0
}
