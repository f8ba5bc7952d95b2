//! What a call came to: the exit status of the program, and its line for standard error.
#![tactic(auto)]

mod identity;
mod line;
mod lists;
mod status;

pub use identity::identity_digits;
pub use status::Status;
