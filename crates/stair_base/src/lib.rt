//! Geometries of arrays, the cells of their stripes, and the equations that a codeword meets.
//!
//! The code is that of Li and Lee, STAIR Codes (FAST 2014). [`Stripe::new`] alone takes memory.
#![tactic(auto)]

pub use code::StripeCode;
pub use coverage::{NotCovered, covered};
pub use device::{BODY_START, FIRST_PLACE, GATE_SECTOR, SECOND_PLACE};
pub use equations::{Broken, first_broken};
pub use geometry::{Geometry, GeometryFault};
pub use kind::Kind;
pub use place::Place;
pub use sets::{CellSet, Slots};
pub use stripe::{SECTOR, Stripe};

mod cells;
mod code;
mod coverage;
mod device;
mod equations;
mod geometry;
mod kind;
mod place;
mod sets;
mod stripe;
