//! The code of a stripe by any of its three encoders (Li and Lee, STAIR Codes, FAST 2014).
//!
//! [`Codec::new`] alone takes memory.
#![tactic(auto)]

pub use choice::{By, Encoder, fewest};
pub use codec::Codec;
pub use costs::{downstairs_steps, upstairs_steps};

mod choice;
mod codec;
mod costs;
pub mod laws;
