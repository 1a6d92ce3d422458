// Document 01, module 8: the first part of the call plan, which others are an agent's neighbours and what the velocity
// call replies on them. It works on records alone, and knows no fleet and no tick. Every public function is
// total, and ensures equality with a definition of `specs/`.
#![tactic(auto)]

ghost use Rattle.std.specs.Prelude.{◌≡◌};
ghost use Rattle.planner.specs.Rule.{rule_of};

pub mod plan;

// Which others a plan keeps as neighbours, and so avoids. `Near` keeps those that can touch within the horizon, and is
// the rule of a hangar. `Source` is the Rust's, kept to be compared with it: it avoids the far ones and SKIPS THE NEAR
// ONES. Nobody is to fly by it. A value and no closure: a tick is opened by it, and a fleet keeps it.
#[derive(Debug, Clone, Copy, PartialEq, Eq)]
pub enum Rule {
    Source,
    Near,
}

// A number that stands for no rule.
#[derive(Debug, Clone, Copy, PartialEq, Eq)]
pub struct UnknownRule {
    pub number: u32,
}

impl TryFrom<u32> for Rule {
    type Error = UnknownRule;

    ghost try_from_gives = { λ number read. read ≡ rule_of number };

    fn try_from(number: u32) -> Result<Self, UnknownRule>
        ensures { result ≡ rule_of number }
    {
        match number {
            0 => Ok(Rule::Source),
            1 => Ok(Rule::Near),
            _ => Err(UnknownRule { number }),
        }
    }
}
