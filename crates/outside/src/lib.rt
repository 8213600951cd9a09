// What an outside firm brings: a sharing rule and a charge source of its own, proved to keep the laws, and used.
#![tactic(auto)]

pub mod seasonal;
pub mod settling;
pub mod standby;
