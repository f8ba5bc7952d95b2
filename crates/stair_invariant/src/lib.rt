//! What a session knows of an array between its calls, and the parts of what its calls did. Its functions are laws, and do
//! nothing.
#![tactic(auto)]

pub mod epochs;
pub mod first_fence;
pub mod keeping;
pub mod laws;
pub mod open;
pub mod openings;
pub mod own;
pub mod rebuilds;
pub mod recovering;
pub mod redo;
pub mod seats;
