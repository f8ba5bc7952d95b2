//! Laws of the volumes of an array over its life. The functions state laws, and do nothing.
#![tactic(auto)]

pub mod lives;
