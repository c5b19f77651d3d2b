// The reader refuses by the first row of the table that fits, and accepts if none does.
#![tactic(auto)]

ghost use Rattle.std.specs.Prelude.{◌≡◌};
ghost use Rattle.refusals.specs.Table.{FirstFitting};

pub fn refusals_agree() -> u8
    ensures answer { result ≡ 0 }
    ensures first { FirstFitting }
{
    0
}
