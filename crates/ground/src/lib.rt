// Grounds: how far it is from a station to a target, in decimetres.
#![tactic(auto)]

pub mod circle;
pub mod fault;
pub mod flat;
mod root;
pub mod scale;
mod sides;
pub mod street;
#[cfg(test)]
mod tests;

ghost use Rattle.std.specs.Prelude.{◌≡◌, ℕ, ◌≤◌};
ghost use Rattle.fields.specs.declared.position.Position.{Position};
ghost use Rattle.ground.specs.Spans.{Within};

use fields::position::Position;

pub trait Ground {
    // The distance from the first position to the second. Nothing says that the way back is as far. The two are no struct:
    // nobody keeps such a pair.
    ghost span: { Self → Position → Position → ℕ };

    fn distance(&self, from: Position, to: Position) -> u32
        ensures { result ≡ span self.now from to };

    ghost bounded: { (s : Self) (p q : Position) → Within p → Within q → span s p q ≤ 999999999 };
}
