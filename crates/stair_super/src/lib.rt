//! The superblock of a device: which array the device belongs to, its slot, and what the array's slots were when it was
//! written.
//!
//! No call takes memory.
#![tactic(auto)]

pub use block::Super;
pub use configuration::Configuration;
pub use label::Label;
pub use mark::Mark;
pub use newer::{is_older, newer_of};
pub use reading::read_super;
pub use writing::{write_super, write_super_v1};

mod block;
mod configuration;
mod label;
pub mod laws;
mod mark;
mod newer;
mod page;
mod reading;
mod version;
mod writing;
