ghost use Rattle.std.specs.Prelude.{◌≡◌, ℕ, ◌+◌, ◌<◌, ◌↔◌, IsNone, IfNone, IfSome, slice_index};
ghost use Rattle.stair_model.specs.Codeword.{IsCodeword, column_sum, row_sum as row_sum_of};
ghost use Rattle.stair_model.specs.Equation.{IsFirstBroken};
ghost use Rattle.stair_model.specs.Geometry.{classes, coverage, data_chunks};
ghost use Rattle.stair_model.specs.Matrix.{row_coefficient as row_coefficient_of, column_coefficient as column_coefficient_of};
ghost use Rattle.stair_model.specs.Stripe.{IsStripeOf, SECTOR, byte_of, symbol_byte};
ghost use Rattle.stair_base.specs.Equations.{FirstDifference, equation_of, IsIntermediateChunk, RowEquationsHold, GlobalEquationsHold};

use crate::geometry::Geometry;
use crate::stripe::{SECTOR, Stripe};
use stair_gf::{inv, mul_add};

/// The most rows that a stripe may have.
const MAX_ROWS: usize = 32;

/// An equation of the code that a stripe breaks, at one byte position, 0 to 511.
#[derive(Clone, Copy, Debug, PartialEq, Eq)]
pub enum Broken {
    /// The equation of row parity `parity`, below m, of row `row`, below r.
    Row { row: u8, parity: u8, byte: u16 },
    /// The equation of global parity `h`, below entry l of the coverage vector, of class `l`, below m'.
    Global { l: u8, h: u8, byte: u16 },
}

/// The first equation that the stripe breaks; None exactly where it is a codeword. The stripe is one of this geometry.
///
/// The equations are those of Li and Lee, STAIR Codes (FAST 2014), over GF(2^8), with two Cauchy matrices (Blömer et
/// al., An XOR-Based Erasure-Resilient Coding Scheme, 1995): A[k][j] = 1/((n-m+k) xor j) and B[h][i] = 1/((r+h) xor i).
/// At each byte position,
///
/// - cell (i, n-m+k) is the sum over j < n-m of A[k][j]·cell(i, j), for each row i and parity k, and
/// - the sum over i < r of B[h][i]·(the sum over j < n-m of A[m+l][j]·cell(i, j)) is 0, for each class l and h < e_l.
///
/// Row equations come first, by row, parity and byte, and then global equations, by class, number and byte.
pub fn first_broken(geometry: &Geometry, stripe: &Stripe) -> Option<Broken>
    requires { IsStripeOf geometry.now stripe.now }
    ensures codeword { IsNone result ↔ IsCodeword geometry.now stripe.now }
    ensures broken { IfSome result (λ b. IsFirstBroken geometry.now stripe.now (equation_of b)) }
{
    match first_broken_row(geometry, stripe) {
        Some(broken) => Some(broken),
        None => first_broken_global(geometry, stripe),
    }
}

/// The first row equation that the stripe breaks.
fn first_broken_row(geometry: &Geometry, stripe: &Stripe) -> Option<Broken>
    requires { IsStripeOf geometry.now stripe.now }
    ensures none { IfNone result (RowEquationsHold geometry.now stripe.now) }
    ensures broken { IfSome result (λ b. IsFirstBroken geometry.now stripe.now (equation_of b)) }
{
    let data_chunks = geometry.n() - geometry.m();
    for row in 0..geometry.r() {
        for parity in 0..geometry.m() {
            let sum = row_sum(geometry, stripe, row, parity);
            if let Some(byte) = first_difference(stripe.cell(row, data_chunks + parity), &sum) {
                return Some(Broken::Row { row, parity, byte });
            }
        }
    }
    None
}

/// The first global equation that the stripe breaks.
fn first_broken_global(geometry: &Geometry, stripe: &Stripe) -> Option<Broken>
    requires of { IsStripeOf geometry.now stripe.now }
    requires rows { RowEquationsHold geometry.now stripe.now }
    ensures none { IfNone result (GlobalEquationsHold geometry.now stripe.now) }
    ensures broken { IfSome result (λ b. IsFirstBroken geometry.now stripe.now (equation_of b)) }
{
    for l in 0..geometry.classes() {
        let symbols = intermediate_chunk(geometry, stripe, l);
        for h in 0..geometry.coverage(l) {
            let sum = global_sum(geometry, &symbols, h);
            if let Some(byte) = first_difference(&sum, &[0; SECTOR]) {
                return Some(Broken::Global { l, h, byte });
            }
        }
    }
    None
}

/// Row `k` of the row matrix over the data chunks of a row, at each byte.
fn row_sum(geometry: &Geometry, stripe: &Stripe, row: u8, k: u8) -> [u8; SECTOR]
    requires of { IsStripeOf geometry.now stripe.now }
    requires row_in { row < geometry.now.r }
    requires k_in { k < geometry.now.m + classes geometry.now }
    ensures { (p : ℕ) → p < SECTOR →
        slice_index result p ≡ row_sum_of geometry.now (byte_of stripe.now p) row k }
{
    let mut sum = [0; SECTOR];
    for chunk in 0..geometry.n() - geometry.m() {
        mul_add(
            &mut sum,
            stripe.cell(row, chunk),
            row_coefficient(geometry, k, chunk),
        );
    }
    sum
}

/// Intermediate chunk `l`, a symbol for each row: row m+l of the row matrix over the data chunks, at each byte.
fn intermediate_chunk(geometry: &Geometry, stripe: &Stripe, l: u8) -> [[u8; SECTOR]; MAX_ROWS]
    requires of { IsStripeOf geometry.now stripe.now }
    requires l_in { l < classes geometry.now }
    ensures { IsIntermediateChunk geometry.now stripe.now l result }
{
    let mut symbols = [[0; SECTOR]; MAX_ROWS];
    for row in 0..geometry.r() {
        symbols[usize::from(row)] = row_sum(geometry, stripe, row, geometry.m() + l);
    }
    symbols
}

/// Row `h` of the column matrix over the symbols of an intermediate chunk, at each byte.
fn global_sum(geometry: &Geometry, symbols: &[[u8; SECTOR]; MAX_ROWS], h: u8) -> [u8; SECTOR]
    requires { h < geometry.now.r }
    ensures { (p : ℕ) → p < SECTOR →
        slice_index result p ≡ column_sum geometry.now (symbol_byte symbols.now p) h }
{
    let mut sum = [0; SECTOR];
    for row in 0..geometry.r() {
        let symbol = &symbols[usize::from(row)];
        mul_add(&mut sum, symbol, column_coefficient(geometry, h, row));
    }
    sum
}

fn row_coefficient(geometry: &Geometry, k: u8, chunk: u8) -> u8
    requires k_in { k < geometry.now.m + classes geometry.now }
    requires chunk_in { chunk < data_chunks geometry.now }
    ensures { result ≡ row_coefficient_of geometry.now k chunk }
{
    inv((geometry.n() - geometry.m() + k) ^ chunk)
}

fn column_coefficient(geometry: &Geometry, h: u8, row: u8) -> u8
    requires h_in { h < geometry.now.r }
    requires row_in { row < geometry.now.r }
    ensures { result ≡ column_coefficient_of geometry.now h row }
{
    inv((geometry.r() + h) ^ row)
}

/// The first byte in which two sectors differ.
fn first_difference(a: &[u8; SECTOR], b: &[u8; SECTOR]) -> Option<u16>
    ensures { FirstDifference a.now b.now result }
{
    for p in 0..SECTOR {
        if a[p] != b[p] {
            return Some(p as u16);
        }
    }
    None
}
