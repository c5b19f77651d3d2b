// Fields written at a place, big-endian. A field for which there is no room is refused, and the octets stay as they were.
ghost use Rattle.std.specs.Prelude.{OnOk, ◌<◌, ◌≡◌, ℕ, ◌+◌, ◌-◌, ◌^◌, List, ◌++◌, length, min};
ghost use Rattle.octets.specs.Faults.{room_at};
ghost use Rattle.octets.specs.Wire.{octets_of, placed, put_at, unsigned};
ghost use Rattle.octets.specs.Widths.{length-octets_of, length-both};

use crate::fault::OctetFault;
use crate::read::check_room;

// A value that can be written as octets, as many for each.
pub trait ToOctets {
    ghost WIDTH: { ℕ };

    // The octets that say it.
    ghost written: { Self → List ℕ };

    // That no number in it has more bits than its octets.
    ghost Fits: { Self → Type 0 };

    // How many octets they are.
    fn width() -> usize
        ensures { result ≡ min WIDTH (2 ^ 64 - 1) };

    fn write(&self, octets: &mut [u8], at: usize) -> Result<(), OctetFault>
        ensures value { result ≡ room_at WIDTH at octets.old }
        ensures after { octets.new ≡ put_at WIDTH at (written self.now) octets.old }
        ensures fits { OnOk result (Fits self.now) };

    ghost full: { (value : Self) → length (written value) ≡ WIDTH };
}

// Writes `part` over the octets from `at` on.
#[tactic(auto, unfolding(crate::specs::Wire::placed))]
pub fn put_part(octets: &mut [u8], at: usize, part: &[u8]) -> Result<(), OctetFault>
    ensures value { result ≡ room_at (length part.now) at octets.old }
    ensures after { octets.new ≡ put_at (length part.now) at part.now octets.old }
{
    check_room(octets, at, part.len())?;
    octets[at..at + part.len()].copy_from_slice(part);
    Ok(())
}

// Each unsigned number has an impl of its own, since each makes an array of another length.
impl ToOctets for u8 {
    ghost WIDTH = { 1 };

    ghost written = { octets_of 1 };

    ghost Fits = { λ number. number < 256 ^ 1 };

    ghost full = { length-octets_of 1 };

    fn width() -> usize {
        1
    }

    #[tactic(auto, unfolding(crate::specs::Wire::octets_of))]
    fn write(&self, octets: &mut [u8], at: usize) -> Result<(), OctetFault> {
        put_part(octets, at, &u8::to_be_bytes(*self))
    }
}

impl ToOctets for u16 {
    ghost WIDTH = { 2 };

    ghost written = { octets_of 2 };

    ghost Fits = { λ number. number < 256 ^ 2 };

    ghost full = { length-octets_of 2 };

    fn width() -> usize {
        2
    }

    #[tactic(auto, unfolding(crate::specs::Wire::octets_of))]
    fn write(&self, octets: &mut [u8], at: usize) -> Result<(), OctetFault> {
        put_part(octets, at, &u16::to_be_bytes(*self))
    }
}

impl ToOctets for u32 {
    ghost WIDTH = { 4 };

    ghost written = { octets_of 4 };

    ghost Fits = { λ number. number < 256 ^ 4 };

    ghost full = { length-octets_of 4 };

    fn width() -> usize {
        4
    }

    #[tactic(auto, unfolding(crate::specs::Wire::octets_of))]
    fn write(&self, octets: &mut [u8], at: usize) -> Result<(), OctetFault> {
        put_part(octets, at, &u32::to_be_bytes(*self))
    }
}

impl ToOctets for u64 {
    ghost WIDTH = { 8 };

    ghost written = { octets_of 8 };

    ghost Fits = { λ number. number < 256 ^ 8 };

    ghost full = { length-octets_of 8 };

    fn width() -> usize {
        8
    }

    #[tactic(auto, unfolding(crate::specs::Wire::octets_of))]
    fn write(&self, octets: &mut [u8], at: usize) -> Result<(), OctetFault> {
        put_part(octets, at, &u64::to_be_bytes(*self))
    }
}

impl ToOctets for i32 {
    ghost WIDTH = { 4 };

    ghost written = { λ number. octets_of 4 (unsigned 31 number) };

    ghost Fits = { λ number. unsigned 31 number < 256 ^ 4 };

    ghost full = { λ number. length-octets_of 4 (unsigned 31 number) };

    fn width() -> usize {
        u32::width()
    }

    fn write(&self, octets: &mut [u8], at: usize) -> Result<(), OctetFault> {
        self.cast_unsigned().write(octets, at)
    }
}

// One value right behind another.
impl<A: ToOctets, B: ToOctets> ToOctets for (A, B) {
    ghost WIDTH = { A.WIDTH + B.WIDTH };

    ghost written = { λ pair. A.written pair.0 ++ B.written pair.1 };

    ghost Fits = { λ pair. A.Fits pair.0 × B.Fits pair.1 };

    ghost full = { λ pair. length-both _ _ _ _ (A.full pair.0) (B.full pair.1) };

    fn width() -> usize {
        A::width().saturating_add(B::width())
    }

    fn write(&self, octets: &mut [u8], at: usize) -> Result<(), OctetFault> {
        check_room(octets, at, Self::width())?;
        self.0.write(octets, at)?;
        self.1.write(octets, at + A::width())
    }
}
