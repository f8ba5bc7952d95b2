//! What a command does, step by step, and what a call did: programs, traces, and the streams of a call.
#![tactic(auto)]

pub mod draws;
mod fault;
mod intake;
pub mod laws;
pub mod lives;
mod pieces;
pub mod runs;
pub mod session;
pub mod sound;
mod status;
mod steps;
mod streams;
pub mod sure;
mod text;
mod writing;

pub use fault::Fault;
pub use intake::Intake;
pub use pieces::{Piece, piece_blocks};
pub use stair_status::Status;
pub use steps::ObservedArray;
pub use streams::{Filled, put_all, take_at_least};
pub use text::wrote_line;
pub use writing::write_input;
