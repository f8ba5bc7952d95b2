//! The stripes of a rack: cells are gathered from its devices, and placed on them.
//!
//! No call takes memory.
#![tactic(auto)]

mod gathering;
mod placing;

pub use gathering::{Gathered, gather, gather_cells};
pub use placing::{place, write_chunk};
