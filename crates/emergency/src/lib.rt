// The emergency energy payment of a resource in a quarter hour.
#![tactic(auto)]

mod fields;
pub mod figures;
pub mod fitting;
pub mod payment;
pub mod row;
pub mod slices;
mod sums;
