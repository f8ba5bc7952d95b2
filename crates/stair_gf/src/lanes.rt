//! Products of 64 bytes at a time.
ghost use Rattle.std.specs.Prelude.{◌≡◌, ℕ, ◌+◌, ◌*◌, ◌%◌, ◌<◌, ◌≤◌, ◌==◌, if◌then◌else◌, length, slice_index, bit_and};
ghost use Rattle.stair_model.specs.Field.{product};
ghost use Rattle.stair_gf.specs.Lanes.{AreHalves, AreLanes, HasLanesAt, by_bits};

use crate::tables::doublings;
use std::marker::Model;
use std::simd::prelude::*;

/// How many bytes are multiplied at a time.
pub(crate) const BLOCK: usize = 64;

/// The numbers below 16.
static NUMBERS: [u8; 16] = [0, 1, 2, 3, 4, 5, 6, 7, 8, 9, 10, 11, 12, 13, 14, 15];

/// A byte that many bytes are multiplied by.
///
/// Of another byte each half has 16 values, so the products with them make two tables, which a
/// shuffle of bytes reads at 16 lanes at once. The product with 1 is the byte itself.
#[derive(Drop)]
pub struct Factor {
    low: u8x16,
    high: u8x16,
}

impl Model for Factor {
    ghost use Rattle.std.specs.Prelude.{ℕ, slice_index};
    ghost use Rattle.stair_gf.specs.Lanes.{HasProducts};

    ghost Value = { ℕ };

    ghost view = { λ f. slice_index f.low 1 };

    ghost invariant = { λ f. HasProducts (slice_index f.low 1) f.low f.high };
}

impl Factor {
    /// The factor that is this byte.
    #[inline(always)]
    pub fn new(by: u8) -> Factor
        ensures { result ≡ by }
    {
        let multiples = doublings(by);
        Factor {
            low: table(multiples),
            high: table(multiples.rotate_elements_left::<4>()),
        }
    }

    /// The products with these bytes.
    #[inline(always)]
    pub(crate) fn times(&self, bytes: u8x64) -> u8x64
        ensures { AreLanes 64 result (λ k. product self.now (slice_index bytes k)) }
    {
        let halves = halves(bytes);
        self.times_halves(halves.0, halves.1)
    }

    /// The products with the bytes that have these halves.
    #[inline(always)]
    pub(crate) fn times_halves(&self, low: u8x64, high: u8x64) -> u8x64
        requires low { (k : ℕ) → k < 64 → slice_index low k < 16 }
        requires high { (k : ℕ) → k < 64 → slice_index high k < 16 }
        ensures { AreLanes 64 result (λ k. product self.now
            (slice_index high k * 16 + slice_index low k)) }
    {
        let products = four_times(self.low).swizzle_dyn_within::<16>(low);
        products ^ four_times(self.high).swizzle_dyn_within::<16>(high)
    }
}

/// A table four times, for as many lanes as there are bytes in a block.
#[inline(always)]
fn four_times(table: u8x16) -> u8x64
    requires { length table ≡ 16 }
    ensures { AreLanes 64 result (λ k. slice_index table (k % 16)) }
{
    table.swizzle([
        0, 1, 2, 3, 4, 5, 6, 7, 8, 9, 10, 11, 12, 13, 14, 15, 0, 1, 2, 3, 4, 5, 6, 7, 8, 9, 10, 11,
        12, 13, 14, 15, 0, 1, 2, 3, 4, 5, 6, 7, 8, 9, 10, 11, 12, 13, 14, 15, 0, 1, 2, 3, 4, 5, 6,
        7, 8, 9, 10, 11, 12, 13, 14, 15,
    ])
}

/// The halves of bytes, the low ones and the high ones.
#[inline(always)]
pub(crate) fn halves(bytes: u8x64) -> (u8x64, u8x64)
    ensures { AreHalves result.0 result.1 bytes }
{
    (bytes & u8x64::splat(15), bytes >> u8x64::splat(4))
}

/// The block of bytes from this place on.
#[inline(always)]
pub(crate) fn load(bytes: &[u8], start: usize) -> u8x64
    requires { start + 64 ≤ length bytes.now }
    ensures { AreLanes 64 result (λ k. slice_index bytes.now (start + k)) }
{
    u8x64::from_slice(&bytes[start..])
}

/// Puts this block of bytes at this place.
#[inline(always)]
pub(crate) fn store(bytes: &mut [u8], start: usize, lanes: u8x64)
    requires { start + 64 ≤ length bytes.old }
    ensures { HasLanesAt bytes.old bytes.new start lanes }
{
    lanes.copy_to_slice(&mut bytes[start..]);
}

/// In each lane the sum of those of the first four multiples whose bits its number has.
#[inline(always)]
fn table(multiples: u8x16) -> u8x16
    ensures { AreLanes 16 result (λ k. by_bits k (slice_index multiples 0) (slice_index multiples 1)
        (slice_index multiples 2) (slice_index multiples 3)) }
{
    where_bit(1, multiples.swizzle([0; 16]))
        ^ where_bit(2, multiples.swizzle([1; 16]))
        ^ where_bit(4, multiples.swizzle([2; 16]))
        ^ where_bit(8, multiples.swizzle([3; 16]))
}

/// These bytes in the lanes whose number has the bit, and 0 in the others.
#[inline(always)]
fn where_bit(bit: u8, bytes: u8x16) -> u8x16
    requires { length bytes ≡ 16 }
    ensures { AreLanes 16 result (λ k. if bit_and k bit == bit then slice_index bytes k else 0) }
{
    let numbers = u8x16::from_array(NUMBERS);
    (numbers & u8x16::splat(bit))
        .simd_eq(u8x16::splat(bit))
        .select(bytes, u8x16::splat(0))
}
