// The planner: the plan by circles, the counting of breaks, and theorems about every plan.
#![tactic(auto)]

pub mod breaks;
mod bytes;
pub mod circle;
pub mod laws;
