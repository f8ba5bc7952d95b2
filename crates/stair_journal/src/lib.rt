//! The journal of an array: a gate on each device, and after it the body of a redo.
//!
//! A redo changes cells of one stripe. Its body is written to every live device, then the gates are opened, the cells are
//! placed, and the gates are closed. No call takes memory.
#![tactic(auto)]

mod body;
mod gate;
mod gates;
pub mod laws;
mod phases;
mod redo;

pub use body::{Body, read_body};
pub use gate::closed_gate;
pub use gates::{Gates, read_gates};
pub use phases::{close_gates, open_gates, write_body};
pub use redo::Redo;
