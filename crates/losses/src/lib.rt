// The operating losses of a resource in a quarter hour.
#![tactic(auto)]

mod categories;
mod costs;
mod fields;
pub mod figures;
pub mod limits;
pub mod loss;
pub mod reader;
pub mod row;
#[cfg(test)]
mod tests;
