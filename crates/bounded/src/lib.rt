// Lists of a bounded length that lie in place: nothing is allocated.
#![tactic(auto)]

pub mod list;
