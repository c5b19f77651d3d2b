// The law of whole runs of a router, and that every run keeps it. There is nothing here to run: each function answers 0, and
// its contract is a theorem.
#![tactic(auto)]

ghost use Rattle.std.specs.Prelude.{◌≡◌};
ghost use Rattle.law.specs.Theorems.{EveryRunIsLawful, CallsBearTheLaw, OpeningBearsTheLaw};
ghost use Rattle.law.specs.Example.{TheExample};
ghost use Rattle.law.specs.Plays.{EveryPlayIsARun};
ghost use Rattle.law.specs.Total.{EveryCallIsAnswered};
ghost use Rattle.law.specs.Wrong.{PretendersAreCaught};

// Every run, from a router that was just opened and placed, is lawful, whatever ground, policy and link each call met.
pub fn every_run_is_lawful() -> u8
    ensures answer { result ≡ 0 }
    ensures law { EveryRunIsLawful }
{
    0
}

// The form in which the calls of a router bear the law.
pub fn calls_bear_the_law() -> u8
    ensures answer { result ≡ 0 }
    ensures opening { OpeningBearsTheLaw }
    ensures calls { CallsBearTheLaw }
{
    0
}

// From every run and for every further call there is one answer that obeys the rules, and no other.
pub fn every_call_is_answered() -> u8
    ensures answer { result ≡ 0 }
    ensures total { EveryCallIsAnswered }
{
    0
}

// Histories of routers that only pretend are not lawful.
pub fn pretenders_are_caught() -> u8
    ensures answer { result ≡ 0 }
    ensures wrong { PretendersAreCaught }
{
    0
}

// Every list of calls can be played, and one that has a bit of everything is, call by call.
pub fn runs_are_played() -> u8
    ensures answer { result ≡ 0 }
    ensures every { EveryPlayIsARun }
    ensures example { TheExample }
{
    0
}
