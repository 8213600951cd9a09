// Either of our rules, chosen when the program runs.
ghost use Rattle.sharing.specs.Choice.{chosen, chosen_fair};

use crate::leftover::Leftover;
use crate::rule::SharingRule;
use crate::running::Running;
use std::fmt;

#[derive(Clone, Copy, PartialEq, Eq, Debug)]
pub enum RuleChoice {
    Running,
    Leftover,
}

impl fmt::Display for RuleChoice {
    fn fmt<W: fmt::Write>(&self, f: &mut fmt::Formatter<W>) -> fmt::Result {
        f.write_str(match self {
            RuleChoice::Running => "running",
            RuleChoice::Leftover => "leftover",
        })
    }
}

impl SharingRule for RuleChoice {
    ghost meaning = { λ rule total loads. chosen rule total loads };

    ghost fair = { λ rule total loads asked. chosen_fair rule total loads asked };

    fn share(&self, total: i64, loads: &[u32], shares: &mut [i64]) {
        match self {
            RuleChoice::Running => Running.share(total, loads, shares),
            RuleChoice::Leftover => Leftover.share(total, loads, shares),
        }
    }
}
