//! What the words of a command line say, and what a geometry text says.
//!
//! [`read_words`] reads a command and its values, or refuses the words. [`read_number`] reads one number, and [`read_config`]
//! the geometry of an array.
#![tactic(auto)]

mod commands;
mod config;
mod fault;
mod job;
mod key;
pub mod laws;
mod matches;
mod name;
mod numbers;
mod volumes;
mod words;

pub use config::read_config;
pub use fault::{ConfigFault, WordsFault};
pub use job::{Job, Method, StripeCommand, VolumeJob};
pub use key::Key;
pub use matches::read_number;
pub use name::{NAME_LIMIT, Name};
pub use numbers::Numbers;
pub use words::read_words;
