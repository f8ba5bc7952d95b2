//! Multiples of one slice added to another.
ghost use Rattle.std.specs.Prelude.{◌≡◌, ℕ, ◌+◌, ◌*◌, ◌<◌, ◌≤◌, [], All, length, slice_index_or};
ghost use Rattle.stair_model.specs.Stripe.{SECTOR};
ghost use Rattle.stair_gf.specs.AddsMultiple.{AddsMultiple, AddsMultipleWithin};
ghost use Rattle.stair_gf.specs.Lanes.{AreLanes};
ghost use Rattle.stair_gf.specs.SetsSums.{AreApart, SetsSums, SetsSumsWithin, sum_by};

use crate::lanes::{BLOCK, Factor, halves, load, store};
use crate::tables::mul;
use std::simd::prelude::*;

/// The bytes of a symbol.
pub const SYMBOL: usize = 512;

/// Adds by·from to `into`, at each byte. Both slices have the same length, in bytes.
pub fn mul_add(into: &mut [u8], from: &[u8], by: u8)
    requires { length into.old ≡ length from.now }
    ensures { AddsMultiple into.old into.new from.now by }
{
    let done = mul_add_blocks(into, from, &Factor::new(by));
    for k in done..into.len() {
        into[k] ^= mul(by, from[k]);
    }
}

/// Does the same to all whole blocks; the result is where they end.
#[inline(always)]
fn mul_add_blocks(into: &mut [u8], from: &[u8], by: &Factor) -> usize
    requires { length into.old ≡ length from.now }
    ensures within { result ≤ length into.old }
    ensures added { AddsMultipleWithin into.old into.new from.now by.now 0 result }
{
    let blocks = into.len() / BLOCK;
    for block in 0..blocks {
        let start = BLOCK * block;
        let sum = load(into, start) ^ by.times(load(from, start));
        store(into, start, sum);
    }
    BLOCK * blocks
}

/// Makes the symbols at the places `into` sums of multiples of those at the places `from`: the d-th by
/// the factors from number d·width on, one for each of `from`. All other symbols stay.
///
/// Up to four are summed up at once, so that the bytes of a symbol are loaded and split into their
/// halves once for all of these.
pub fn sums(symbols: &mut [[u8; SYMBOL]], into: &[u16], from: &[u16], by: &[Factor], width: usize)
    requires width { length from.now ≤ width }
    requires factors { length into.now * width ≤ length by.now }
    requires apart { AreApart (length symbols.old) into.now from.now }
    ensures { SetsSums symbols.old symbols.new into.now from.now by.now width }
{
    let fours = into.len() / 4;
    for four in 0..fours {
        sums_of::<4>(symbols, into, 4 * four, from, by, width);
    }
    let first = 4 * fours;
    match into.len() - first {
        3 => sums_of::<3>(symbols, into, first, from, by, width),
        2 => sums_of::<2>(symbols, into, first, from, by, width),
        1 => one_sum(symbols, into, first, from, by, width),
        _ => {}
    }
}

/// Does so for the places from number `first` on, of which it takes `COUNT`, block after block.
#[inline(always)]
fn sums_of<const COUNT: usize>(
    symbols: &mut [[u8; SYMBOL]],
    into: &[u16],
    first: usize,
    from: &[u16],
    by: &[Factor],
    width: usize,
)
    requires few { COUNT ≤ 4 }
    requires within { first + COUNT ≤ length into.now }
    requires width { length from.now ≤ width }
    requires factors { length into.now * width ≤ length by.now }
    requires apart { AreApart (length symbols.old) into.now from.now }
    ensures { SetsSumsWithin symbols.old symbols.new into.now from.now by.now width first
        (first + COUNT) }
{
    for block in 0..SYMBOL / BLOCK {
        let start = BLOCK * block;
        let sums = sums_at::<COUNT>(symbols, start, from, by, first * width, width);
        for d in 0..COUNT {
            store(&mut symbols[usize::from(into[first + d])], start, sums[d]);
        }
    }
}

/// The blocks of `COUNT` sums at this place of the symbols: the d-th by the factors from number
/// factor + d·width on.
#[inline(always)]
fn sums_at<const COUNT: usize>(
    symbols: &[[u8; SYMBOL]],
    start: usize,
    from: &[u16],
    by: &[Factor],
    factor: usize,
    width: usize,
) -> [u8x64; COUNT]
    requires few { COUNT ≤ 4 }
    requires within { start + 64 ≤ SECTOR }
    requires width { length from.now ≤ width }
    requires factors { factor + COUNT * width ≤ length by.now }
    requires from { All (λ p. p < length symbols.now) from.now }
    ensures { (d : ℕ) → d < COUNT → AreLanes 64 (slice_index_or result d [])
        (λ k. sum_by symbols.now from.now by.now (factor + d * width) (start + k)) }
{
    let mut sums = [u8x64::splat(0); COUNT];
    for (i, place) in from.iter().enumerate() {
        let halves = halves(load(&symbols[usize::from(*place)], start));
        for d in 0..COUNT {
            sums[d] ^= by[factor + d * width + i].times_halves(halves.0, halves.1);
        }
    }
    sums
}

/// Makes the symbol at place number `number` such a sum, by two blocks at once, since the loop over few symbols takes about as
/// long as one block.
#[inline(always)]
fn one_sum(
    symbols: &mut [[u8; SYMBOL]],
    into: &[u16],
    number: usize,
    from: &[u16],
    by: &[Factor],
    width: usize,
)
    requires within { number < length into.now }
    requires width { length from.now ≤ width }
    requires factors { length into.now * width ≤ length by.now }
    requires apart { AreApart (length symbols.old) into.now from.now }
    ensures { SetsSumsWithin symbols.old symbols.new into.now from.now by.now width number
        (number + 1) }
{
    for pair in 0..SYMBOL / (2 * BLOCK) {
        let start = 2 * BLOCK * pair;
        let sum = two_blocks(symbols, start, from, by, number * width);
        store(&mut symbols[usize::from(into[number])], start, sum.0);
        store(
            &mut symbols[usize::from(into[number])],
            start + BLOCK,
            sum.1,
        );
    }
}

/// Two blocks of a sum at this place of the symbols: by the factors from number `factor` on.
#[inline(always)]
fn two_blocks(
    symbols: &[[u8; SYMBOL]],
    start: usize,
    from: &[u16],
    by: &[Factor],
    factor: usize,
) -> (u8x64, u8x64)
    requires within { start + 128 ≤ SECTOR }
    requires factors { factor + length from.now ≤ length by.now }
    requires from { All (λ p. p < length symbols.now) from.now }
    ensures first { AreLanes 64 result.0 (λ k. sum_by symbols.now from.now by.now factor (start + k)) }
    ensures second { AreLanes 64 result.1
        (λ k. sum_by symbols.now from.now by.now factor (start + 64 + k)) }
{
    let mut first = u8x64::splat(0);
    let mut second = u8x64::splat(0);
    for (i, place) in from.iter().enumerate() {
        let symbol = &symbols[usize::from(*place)];
        first ^= by[factor + i].times(load(symbol, start));
        second ^= by[factor + i].times(load(symbol, start + BLOCK));
    }
    (first, second)
}
