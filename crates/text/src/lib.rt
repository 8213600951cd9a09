// The text of a day: lines, their fields, the numbers and lists in them, and the text of the answers.
#![tactic(auto)]

pub mod answers;
mod blanks;
pub mod fields;
pub mod lines;
pub mod lists;
pub mod numbers;
#[cfg(test)]
mod tests;
