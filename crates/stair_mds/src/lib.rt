//! Solving symbols of a systematic Cauchy code from any known ones.
#![tactic(auto)]

mod coefficients;
mod distances;
mod line;
mod mds;
mod places;
mod symbols;

pub use line::Line;
pub use mds::Mds;
pub use places::{MAX_PLACES, numbers_from};
pub use stair_gf::SYMBOL;
pub use symbols::Symbols;
