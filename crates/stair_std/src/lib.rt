//! Encodes a stripe by the coefficients of its parities over its data cells (the standard encoding of Li and Lee, STAIR
//! Codes, FAST 2014).
//!
//! [`Generator::new`] alone takes memory.
#![tactic(auto)]

pub use generator::Generator;
pub use standard::encode_standard;

mod cells;
mod coefficients;
mod generator;
mod standard;
mod units;
