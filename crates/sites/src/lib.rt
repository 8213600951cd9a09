// What small generation sites are paid, and how it is split over their units.
#![tactic(auto)]

mod checks;
pub mod figures;
pub mod limits;
mod prices;
pub mod refusal;
pub mod site;
mod split;
#[cfg(test)]
mod tests;
