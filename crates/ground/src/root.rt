// The hypotenuse of two sides, to the next whole number.
ghost use Rattle.std.specs.Prelude.{◌≡◌, ◌+◌, ◌*◌, ◌^◌, ◌<◌, ◌≤◌};
ghost use Rattle.ground.specs.Roots.{root, Least};

use crate::sides::Side;

// Enough steps for any start below 2^30.
const STEPS: u32 = 30;

// A number whose next one's square is above n and that is not above the root of n, by Newton's steps from a start that is
// large enough. A step at least halves what is too much: thirty are enough for any start below 2^30, and five or six are
// the rule. Not by std's isqrt: the number of steps is a constant of this code, which is proved to be enough.
fn near_root(n: u64, start: u64) -> u64
    requires some { 0 < n }
    requires above { n < (start + 1) * (start + 1) }
    requires bound { start < 2 ^ 30 }
    ensures enough { n < (result + 1) * (result + 1) }
    ensures most { result ≤ root n }
    ensures bound { result < 2 ^ 30 }
{
    let mut x = start;
    for _ in 0..STEPS {
        let next = (x + n / x) / 2;
        if next >= x {
            return x;
        }
        x = next;
    }
    x
}

pub(crate) fn hypotenuse(north: Side, east: Side) -> u64
    ensures value { result ≡ root (north.decimetres * north.decimetres + east.decimetres * east.decimetres) }
    ensures least { Least (north.decimetres * north.decimetres + east.decimetres * east.decimetres) result }
    ensures bound { result < 2 ^ 32 }
{
    let square = north.decimetres * north.decimetres + east.decimetres * east.decimetres;
    if square == 0 {
        return 0;
    }
    let near = near_root(square, north.decimetres + east.decimetres);
    if near * near < square { near + 1 } else { near }
}
