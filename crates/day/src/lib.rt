// The records of a day's text: their names, their fields, and what each holds.
#![tactic(auto)]

pub mod held;
pub mod names;
pub mod reading;
pub mod records;
pub mod roll;
