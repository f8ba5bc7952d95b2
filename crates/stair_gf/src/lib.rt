//! Arithmetic of GF(2^8), the field of 256 elements, on single bytes and on slices of bytes.
//!
//! A byte is a polynomial over two elements, bit i the coefficient of x^i. A sum is the exclusive or. A product is taken
//! modulo x^8 + x^4 + x^3 + x^2 + 1 (0x11D), the polynomial of J. S. Plank, A Tutorial on Reed-Solomon Coding for
//! Fault-Tolerance in RAID-like Systems (1997). No call takes memory.
#![tactic(auto)]

mod lanes;
mod multiples;
mod plain;
mod steps;
mod tables;

pub use lanes::Factor;
pub use multiples::{SYMBOL, mul_add, sums};
pub use plain::{mul_add_plain, mul_plain};
pub use steps::Steps;
pub use tables::{inv, mul};
