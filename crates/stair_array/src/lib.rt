//! An array over the devices of a rack.
#![tactic(auto)]

mod admitting;
mod array;
mod fault;
pub mod laws;
mod look;
pub mod looks;
pub mod machine;
mod mending;
mod new_array;
mod new_device;
mod news;
pub mod performs;
mod reading;
pub mod reads;
mod rebuilding;
pub mod rebuilds;
pub mod recovered;
mod recovery;
mod redoing;
pub mod replaces;
pub mod scrubs;
mod session;
pub mod stamps;
pub mod writes;
mod writing;

pub use array::Array;
pub use fault::{ArrayFault, CreateFault, Progress, RebuildFault, RecoverFault, ReplaceFault};
pub use new_array::create;
pub use news::News;
