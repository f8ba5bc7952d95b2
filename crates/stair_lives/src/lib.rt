//! Laws over the life of an array whose media are reinserted: what was left out stays out. Its functions are laws, and do nothing.
#![tactic(auto)]

pub mod stale;
