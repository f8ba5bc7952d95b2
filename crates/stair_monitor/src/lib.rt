//! A watcher with a limit of events of one kind, and the lines of events: printed, read back, and counted.
//!
//! [`Quota`] prints the events of one kind and leaves at a chosen number of them. [`print_event`] prints the line of an
//! event, and [`read_event`] reads it back or refuses it. [`report`] counts the events of a text of such lines.
#![tactic(auto)]

pub mod laws;
mod printing;
mod quota;
mod reading;
mod reporting;

pub use printing::{MAX_EVENT_LINE, print_event};
pub use quota::Quota;
pub use reading::read_event;
pub use reporting::{ReportFault, report};
/// The kinds of events, of which a [`Quota`] prints one.
pub use stair_rack::EventKind;
