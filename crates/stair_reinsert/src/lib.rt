//! Arrays whose media come back: which medium lies where, what holds of one wherever it lies, why a stale one is never taken for
//! live, and what an opening asks of the outside. Its functions are laws, and do nothing.
#![tactic(auto)]

pub mod chunks;
pub mod current_media;
pub mod epochs;
pub mod following;
pub mod openings;
pub mod stale;
pub mod steps;
