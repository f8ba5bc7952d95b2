//! Calls for C programs on the code of a stripe (Li and Lee, STAIR Codes, FAST 2014).
//!
//! Each export tests what it is handed, and answers a status.
#![tactic(auto)]

pub use exports::{Cost, stair_check, stair_cost, stair_encode, stair_place};
pub use restore::stair_restore;

mod encoders;
mod exports;
pub mod laws;
mod restore;
mod standard;
mod stripes;
