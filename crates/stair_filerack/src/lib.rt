//! A rack over image files.
#![tactic(auto)]

mod access;
mod ahead;
mod file;
mod full;
pub mod laws;
mod lock;
mod pending;
mod rack;
mod reason;
mod slot;

pub use access::Access;
pub use lock::{Lock, Locking};
pub use rack::{FileRack, Refused};
pub use reason::Reason;
