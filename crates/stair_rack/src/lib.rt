//! Where bytes come from and go to: racks of devices, sources and sinks, each of which may fail; and who is told of what
//! happens to an array.
#![tactic(auto)]

mod count;
mod from_read;
mod from_write;
pub mod laws;
mod mem_sink;
mod mem_source;
mod pass;
mod phase;
mod rack;
mod retry;
mod sink;
mod source;
mod sync;
mod through;
mod watcher;
mod write;

pub use from_read::FromRead;
pub use from_write::FromWrite;
pub use mem_sink::MemSink;
pub use mem_source::MemSource;
pub use phase::sync_rest;
pub use rack::{Got, Rack, Reply};
pub use retry::read_retrying;
pub use sink::{Put, Sink};
pub use source::{Source, Taken};
pub use sync::sync_all;
pub use through::write_through;
pub use watcher::{Counts, Event, EventKind, Next, Watcher};
pub use write::write_all;
