// Does the records of a day's text in order, and tells each answer.
#![tactic(auto)]

pub mod blocks;
#[cfg(test)]
mod cases;
pub mod lines;
pub mod meaning;
pub mod report;
pub mod run;
pub mod teller;
#[cfg(test)]
mod tests;
pub mod words;
