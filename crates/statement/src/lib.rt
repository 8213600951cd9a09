// What a day leaves: each party's statement with the steps of its formulas, and the journal of the standing settlements.
#![tactic(auto)]

pub mod journal;
pub mod notes;
pub mod slots;
pub mod statement;
pub mod steps;
#[cfg(test)]
mod tests;
