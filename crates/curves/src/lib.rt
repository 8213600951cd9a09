// Offer curves: as submitted, checked, completed and read.
#![tactic(auto)]

pub mod curve;
pub mod figures;
pub mod keys;
pub mod limits;
pub mod points;
