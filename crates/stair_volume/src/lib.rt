//! Named volumes of an array, whose table is block 0 of the array.
//!
//! No call allocates memory.
#![tactic(auto)]

mod changing;
mod commands;
mod extent;
mod fault;
pub mod lasting;
pub mod laws;
mod reading;
mod streams;
mod table;
mod table_fault;
mod writing;

pub use commands::volume;
pub use extent::{Entry, Extent};
pub use fault::VolumeFault;
pub use reading::read_table;
pub use table::{TABLE_LIMIT, Table};
pub use table_fault::TableFault;
pub use writing::write_table;
