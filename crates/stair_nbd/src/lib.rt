//! An array as a network block device: one session of an NBD client over a source and a sink.
//!
//! [`session`] speaks the fixed newstyle of the protocol (`doc/proto.md` of the NBD project) for one export, the whole
//! array, with 512 bytes a block. It serves READ, WRITE, FLUSH and DISC. It knows two options: ABORT, and the one that
//! names the export, by any name. Other options are answered as unsupported: TLS, structured replies, LIST, INFO and GO
//! among them.
#![tactic(auto)]

mod blocks;
mod fault;
mod place;
mod reply;
mod serving;
mod taking;
mod wire;

pub use fault::NbdFault;
pub use place::SESSION_LIMIT;
pub use serving::{BUFFER, session};
