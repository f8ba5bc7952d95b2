//! Who is told of what happens to an array: watchers that keep, count or print the events, told in order until they leave.
#![tactic(auto)]

mod kept;
pub mod laws;
mod line;
mod printer;
mod put;
mod tally;
mod told;

pub use kept::Kept;
pub use line::{Line, MAX_OUTPUT_LINE};
pub use printer::Printer;
pub use put::put_until_fault;
pub use tally::Tally;
pub use told::{add, tell};
