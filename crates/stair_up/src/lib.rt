//! Restores the erased cells of a stripe, rows with few of them first, and encodes a stripe, by upstairs decoding.
//!
//! The code and the way are those of Li and Lee, STAIR Codes (FAST 2014). No call takes memory.
#![tactic(auto)]

pub use decode::decode_upstairs;
pub use encode::encode_upstairs;

mod decode;
mod encode;
mod light_rows;
mod rows;
mod solve;
