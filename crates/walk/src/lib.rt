// The walk over a source's lines that a settlement makes.
#![tactic(auto)]

pub mod flaw;
pub mod tally;
