//! What the words of a STAIR code mean, and the laws about them.
#![tactic(auto)]

pub mod code;
pub mod codeword;
pub mod coverage;
pub mod dependents;
pub mod device;
pub mod encoding;
pub mod field;
pub mod geometry;
pub mod layout;
pub mod restoring;
pub mod stripe;
