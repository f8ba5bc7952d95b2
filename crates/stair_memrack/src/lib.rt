//! A rack in memory, which plays a script of what the outside does to it, and a rack over it that is not honest. They are
//! meant for tests of what stands on racks.
#![tactic(auto)]

mod act;
mod crash;
mod disk;
pub mod laws;
mod origin;
mod place;
mod rack;
mod record;
mod script;
mod wild;

pub use act::{Act, What};
pub use rack::MemRack;
pub use wild::WildRack;
