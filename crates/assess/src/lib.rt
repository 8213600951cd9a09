// What settling a slot checks and works out, before anything is written.
#![tactic(auto)]

pub mod assessing;
pub mod checks;
pub mod limits;
pub mod refusals;
pub mod slots;
