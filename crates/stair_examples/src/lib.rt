//! Examples of the main definitions: for each a small instance that meets it, and one that differs in one point and
//! does not.
//!
//! The functions state laws, and do nothing.
#![tactic(auto)]

pub mod examples;
