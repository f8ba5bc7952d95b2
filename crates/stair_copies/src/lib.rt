//! Which devices of an array are older copies: of devices that were restored from a backup, or the other halves of mirrors.
#![tactic(auto)]

mod copies;
pub mod laws;

pub use copies::{Copies, find_copies};
