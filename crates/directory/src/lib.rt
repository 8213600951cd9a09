// Directories: records in rising key order, found by their key; and the directory of parties by code.
#![tactic(auto)]

pub mod keyed;
pub mod lookup;
pub mod parties;
#[cfg(test)]
mod tests;
