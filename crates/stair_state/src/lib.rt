//! What an array is: the blocks that it holds, the images and racks that represent it, and what becomes of them in a redo, a
//! recovery and a survey. Its functions are laws, and do nothing.
#![tactic(auto)]

pub mod blocks;
pub mod images;
pub mod outside;
pub mod recoveries;
pub mod redos;
pub mod stages;
pub mod surveys;
