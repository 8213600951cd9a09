// What the market pays: the lines of charge sources, and layers that change their amounts.
#![tactic(auto)]

pub mod adjustment;
pub mod denial;
pub mod energy;
pub mod fault;
pub mod figure;
pub mod interface;
pub mod limits;
pub mod listed;
pub mod nolines;
pub mod period;
pub mod piled;
pub mod reader;
pub mod rowsource;
pub mod setting;
pub mod table;
