//! Tests of whole calls of `stair` that no scene of `stair_scenes` can express.
#![tactic(auto)]

#[cfg(test)]
mod puts;
#[cfg(test)]
mod watchers;
