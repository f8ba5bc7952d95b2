//! Tests of racks, image files, superblocks, stripes and tables of volumes.
#![tactic(auto)]

#[cfg(test)]
mod faulty;
#[cfg(test)]
mod files;
#[cfg(test)]
mod following;
#[cfg(test)]
mod gathering;
#[cfg(test)]
mod memory;
#[cfg(test)]
mod racks;
#[cfg(test)]
mod sealing;
#[cfg(test)]
mod streams;
#[cfg(test)]
mod stripes;
#[cfg(test)]
mod superblocks;
#[cfg(test)]
mod tables;
