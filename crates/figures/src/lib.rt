// Worked figures of the rules, proved of the definitions that the contracts cite.
#![tactic(auto)]

ghost use Rattle.std.specs.Prelude.{◌≡◌};
ghost use Rattle.figures.specs.Figures.{Figures};

// The figures hold, all of them.
pub fn figures_stand() -> u8
    ensures answer { result ≡ 0 }
    ensures figures { Figures }
{
    0
}
