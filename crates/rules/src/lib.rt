// What the router's calls are asked and what they answer. The rules themselves are definitions, in specs/.
#![tactic(auto)]

pub mod answer;
pub mod fault;
pub mod hold;
pub mod placing;
pub mod request;
pub mod verdict;

ghost use Rattle.std.specs.Prelude.{◌≡◌};
ghost use Rattle.rules.specs.Joins.{RulesAgree};

// The rules' own words for packets agree with the reader, and with the rule for lifetimes.
pub fn rules_agree() -> u8
    ensures answer { result ≡ 0 }
    ensures agree { RulesAgree }
{
    0
}
