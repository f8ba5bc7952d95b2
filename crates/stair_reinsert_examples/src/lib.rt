//! Histories of five devices whose media are reinserted: what misleads a survey, what a wrong program leaves, and what a right one
//! does. Its functions are laws, and do nothing.
#![tactic(auto)]

pub mod examples;
