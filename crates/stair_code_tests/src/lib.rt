//! Tests of the field, of geometries and their codes, and of what a code costs.
#![tactic(auto)]

#[cfg(test)]
mod canonical;
#[cfg(test)]
mod costs;
#[cfg(test)]
mod encoders;
#[cfg(test)]
mod field;
#[cfg(test)]
mod geometry;
#[cfg(test)]
mod matrices;
#[cfg(test)]
mod solving;
