// Fields read at a place, big-endian.
ghost use Rattle.std.specs.Prelude.{◌≡◌, ℕ, List, Result, Ok, take, drop};
ghost use Rattle.octets.specs.Faults.{and_then, room_at, read_at, signed_at, coordinate_at};
ghost use Rattle.octets.specs.declared.fault.OctetFault.{OctetFault};

use crate::fault::OctetFault;

// A value that octets can say, from any place on.
pub trait FromOctets: Sized {
    // What the octets from a place on say.
    ghost reading: { ℕ → List ℕ → Result Self OctetFault };

    fn read(octets: &[u8], at: usize) -> Result<Self, OctetFault>
        ensures { result ≡ reading at octets.now };
}

// Whether there are `width` octets from `at` on.
pub fn check_room(octets: &[u8], at: usize, width: usize) -> Result<(), OctetFault>
    ensures { result ≡ room_at width at octets.now }
{
    if octets.len() < at || octets.len() - at < width {
        return Err(OctetFault::Missing { place: at });
    }
    Ok(())
}

// The `WIDTH` octets from `at` on.
fn part_at<const WIDTH: usize>(octets: &[u8], at: usize) -> Result<[u8; WIDTH], OctetFault>
    ensures { result ≡ and_then (room_at WIDTH at octets.now) (λ _. Ok (take WIDTH (drop at octets.now))) }
{
    let missing = OctetFault::Missing { place: at };
    let rest = octets.get(at..).ok_or(missing)?;
    rest.first_chunk().copied().ok_or(missing)
}

// Each unsigned number has an impl of its own, since each takes an array of another length.
impl FromOctets for u8 {
    ghost reading = { read_at 1 };

    fn read(octets: &[u8], at: usize) -> Result<u8, OctetFault> {
        Ok(u8::from_be_bytes(part_at(octets, at)?))
    }
}

impl FromOctets for u16 {
    ghost reading = { read_at 2 };

    fn read(octets: &[u8], at: usize) -> Result<u16, OctetFault> {
        Ok(u16::from_be_bytes(part_at(octets, at)?))
    }
}

impl FromOctets for u32 {
    ghost reading = { read_at 4 };

    fn read(octets: &[u8], at: usize) -> Result<u32, OctetFault> {
        Ok(u32::from_be_bytes(part_at(octets, at)?))
    }
}

impl FromOctets for u64 {
    ghost reading = { read_at 8 };

    fn read(octets: &[u8], at: usize) -> Result<u64, OctetFault> {
        Ok(u64::from_be_bytes(part_at(octets, at)?))
    }
}

impl FromOctets for i32 {
    ghost reading = { signed_at };

    fn read(octets: &[u8], at: usize) -> Result<i32, OctetFault> {
        Ok(u32::read(octets, at)?.cast_signed())
    }
}

// A coordinate whose size is at most `limit`.
pub fn coordinate_at(octets: &[u8], at: usize, limit: u32) -> Result<i32, OctetFault>
    ensures { result ≡ coordinate_at limit at octets.now }
{
    let coordinate = i32::read(octets, at)?;
    if coordinate.unsigned_abs() > limit {
        return Err(OctetFault::OutOfRange { place: at });
    }
    Ok(coordinate)
}
