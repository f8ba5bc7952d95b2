ghost use Rattle.std.specs.Prelude.{◌≤◌, length};
ghost use Rattle.stair_model.specs.Stripe.{IsStripeOf};

use stair_base::{Geometry, Stripe};
use stair_mds::Symbols;

/// The offset basis and the prime of the hash FNV-1a with 64 bits (Fowler, Noll and Vo).
const OF_NOTHING: u64 = 0xCBF2_9CE4_8422_2325;

const PRIME: u64 = 0x0000_0100_0000_01B3;

/// Returns the hash of the bytes that `hash` is the hash of, followed by these bytes.
fn hash_on(hash: u64, bytes: &[u8]) -> u64 {
    let mut hash = hash;
    for byte in bytes {
        hash = (hash ^ u64::from(*byte)).wrapping_mul(PRIME);
    }
    hash
}

/// Returns a check of the bytes of the symbols from place `first` up to place `end`, in order: their FNV-1a hash of 64 bits.
pub(crate) fn check_of(symbols: &Symbols, first: u16, end: u16) -> u64
    requires { end ≤ length symbols.now }
{
    let mut hash = OF_NOTHING;
    for place in first..end {
        hash = hash_on(hash, symbols.symbol(place));
    }
    hash
}

/// Returns the same check of the bytes of all cells of a stripe, row by row.
pub(crate) fn check_of_stripe(geometry: &Geometry, stripe: &Stripe) -> u64
    requires { IsStripeOf geometry.now stripe.now }
{
    let mut hash = OF_NOTHING;
    for row in 0..geometry.r() {
        for slot in 0..geometry.n() {
            hash = hash_on(hash, stripe.cell(row, slot));
        }
    }
    hash
}

/// Returns the same check of the bytes of these blocks, or of these sealed sectors.
pub(crate) fn check_of_blocks<const N: usize>(blocks: &[[u8; N]]) -> u64 {
    let mut hash = OF_NOTHING;
    for block in blocks {
        hash = hash_on(hash, block);
    }
    hash
}
