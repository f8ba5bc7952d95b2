//! What the superblocks of a rack's media say of an array, and what a session knows of it.
#![tactic(auto)]

mod aim;
mod attempt;
mod begin;
mod changes;
mod epoch;
mod establish;
mod fault;
mod judge;
pub mod laws;
mod look;
mod member;
mod probe;
mod seeing;
mod superblock_writes;
mod surveying;
mod why;

pub use aim::EpochChange;
pub use epoch::{admit, fence, promote, stamp};
pub use fault::{AdmitFault, FenceFault, SurveyFault};
pub use member::Member;
pub use probe::{PlaceProbe, SlotProbe, probe_slot};
pub use surveying::survey;
pub use why::Why;
