//! The canonical stripe of a STAIR code: a stripe with its intermediate chunks and virtual symbols, whose rows and chunks
//! are solved one by one.
//!
//! The code is that of Li and Lee, STAIR Codes (FAST 2014). [`Canon::new`] alone takes memory.
#![tactic(auto)]

pub use canon::Canon;
pub use order::{Order, columns_by_count};

mod canon;
mod codes;
mod known;
pub mod laws;
mod order;
mod parities;
