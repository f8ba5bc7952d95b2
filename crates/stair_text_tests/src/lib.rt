//! Unit tests of lines that are printed, and of watchers.
#![tactic(auto)]

#[cfg(test)]
mod events;
#[cfg(test)]
mod scripts;
#[cfg(test)]
mod watchers;
