//! What the program does around its one call: the command line, the lock of the folder, standard input and output, the watchers,
//! the progress line, and the report of the cause after the call.
#![tactic(auto)]

mod after;
mod call;
mod command;
mod copies;
mod devices;
mod folder;
mod hearing;
mod limits;
mod missing;
mod pace;
mod progress;
mod report;
mod screen;
mod sectors;
mod sizes;
mod streams;

pub use call::TopCall;
pub use command::{Outcome, Refusal, run};
pub use streams::report_fault;
