//! What the code of a geometry costs: the steps of its three encoders, and how many parities change with a block.
#![tactic(auto)]

pub use planning::plan;
pub use plans::Plan;

pub mod laws;
mod planning;
mod plans;
