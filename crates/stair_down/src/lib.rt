//! Encodes a stripe downstairs: row by row from the top, through the intermediate chunks (Li and Lee, STAIR Codes, FAST 2014).
//!
//! No call takes memory.
#![tactic(auto)]

pub use downstairs::encode_downstairs;

mod downstairs;
mod places;
