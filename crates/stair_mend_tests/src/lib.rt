//! Tests of slots that are rebuilt by the public calls of an array.
#![tactic(auto)]

#[cfg(test)]
mod between;
#[cfg(test)]
mod scene;
