// The market's row kinds as lines of a source: what a row of readings is paid, or what is wrong with it.
#![tactic(auto)]

pub mod emergency_rows;
pub mod worked;
pub mod worked_rows;
