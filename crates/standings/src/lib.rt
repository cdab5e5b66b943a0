// The standings: what results make of a table, the points after an ending, and who is sure to be first.
#![tactic(auto)]

pub mod asked;
pub mod endings;
pub mod gains;
pub mod laws;
mod own;
pub mod results;
pub mod sure;
pub mod table;
