//! The lines of a script: which line says what, and how a line is printed.
//!
//! [`read_line`] reads one line, or refuses it. [`print_line`] prints one, and what it printed is read back.
#![tactic(auto)]

pub mod laws;
mod line;
mod printing;
mod reading;

pub use line::{Line, MAX_SCRIPT_LINE, SCRIPT_LIMIT};
pub use printing::print_line;
pub use reading::read_line;
