// What a day has gathered and settled: the enrolled, the tables of rows, the layers, and the open book.
#![tactic(auto)]

pub mod answer;
pub mod enrolled;
pub mod ledger;
pub mod notdone;
pub mod tables;
pub mod worked;
