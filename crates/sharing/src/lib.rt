// Totals shared over loads, to the cent.
#![tactic(auto)]

pub mod choice;
pub mod figures;
pub mod leftover;
pub mod loads;
pub mod rule;
pub mod running;
