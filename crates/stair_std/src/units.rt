//! Stripes of which, at each byte position, one data cell is 1 and all others are zero.

ghost use Rattle.std.specs.Prelude.{◌≡◌, ℕ, ◌*◌, ◌%◌, ◌<◌, length, slice_index};
ghost use Rattle.stair_model.specs.Encoding.{IsEncodedFrom};
ghost use Rattle.stair_model.specs.Geometry.{IsWithinLimits, data_cells};
ghost use Rattle.stair_model.specs.Stripe.{IsStripeOf, SECTOR};
ghost use Rattle.stair_std.specs.Cells.{AreParts};
ghost use Rattle.stair_std.specs.Coefficients.{parity_cells};
ghost use Rattle.stair_std.specs.UnitsSteps.{AreUnitBlocks, AreUnits, HasColumnSet, unit_byte};

use crate::cells::{Part, block_at, cell_count, part_at, row_and_slot};
use stair_base::{Geometry, SECTOR, Stripe};
use stair_canon::Canon;
use stair_down::encode_downstairs;
use stair_gf::Steps;
use std::marker::Brand;
use std::sync::ledger::{Blank, Ledger};

/// The bytes of this block: zero, but for the byte whose place is the block's number less `first`, which is 1.
fn unit_block(block: u16, first: u16) -> [u8; SECTOR]
    ensures count { length result ≡ SECTOR }
    ensures bytes { (p : ℕ) → p < SECTOR → slice_index result p ≡ unit_byte first p block }
{
    let mut bytes = [0; SECTOR];
    if first <= block && usize::from(block - first) < SECTOR {
        bytes[usize::from(block - first)] = 1;
    }
    bytes
}

/// Puts those blocks into the data cells.
fn put_unit_blocks(geometry: &Geometry, stripe: &mut Stripe, first: u16)
    requires { IsStripeOf geometry.now stripe.old }
    ensures units { AreUnitBlocks geometry.now first stripe.new }
    ensures limits { IsWithinLimits geometry.now }
{
    for number in 0..cell_count(geometry) {
        let (row, slot) = row_and_slot(geometry, number);
        if let Some(block) = block_at(geometry, row, slot) {
            stripe.put(row, slot, &unit_block(block, first));
        }
    }
}

/// Encodes the stripe; nobody reads the count of steps.
fn encode_uncounted<L: Ledger>(blank: Blank, canon: &mut Canon, stripe: &mut Stripe)
    requires name { blank.name ≡ L.name }
    requires parts { blank.parts ≡ L.parts }
    requires some { 0 < L.parts }
    requires of { IsStripeOf canon.old.geometry stripe.old }
    ensures encoded { IsEncodedFrom canon.old.geometry stripe.old stripe.new }
    ensures geometry { canon.new.geometry ≡ canon.old.geometry }
{
    let mut steps = Steps::<L>::new(blank);
    encode_downstairs(canon, stripe, &mut steps);
}

/// Makes the stripe the codeword of which, at byte p, data cell first+p is 1 and all other data cells are zero.
pub(crate) fn encode_units(canon: &mut Canon, stripe: &mut Stripe, first: u16)
    requires { IsStripeOf canon.old.geometry stripe.old }
    ensures units { AreUnits canon.old.geometry first stripe.new }
    ensures geometry { canon.new.geometry ≡ canon.old.geometry }
{
    put_unit_blocks(&canon.geometry(), stripe, first);
    encode_uncounted::<Brand>(Blank::new(1), canon, stripe);
}

/// Makes the coefficients of all parities over this data cell those of a stripe in which, at its byte, the data cell is 1
/// and all others are zero.
pub(crate) fn set_column(
    geometry: &Geometry,
    parts: &[Part],
    stripe: &Stripe,
    block: u16,
    coefficients: &mut [u8],
)
    requires of { IsStripeOf geometry.now stripe.now }
    requires parts { AreParts geometry.now parts.now }
    requires block_in { block < data_cells geometry.now }
    requires count { length coefficients.old ≡ parity_cells geometry.now * data_cells geometry.now }
    ensures { HasColumnSet geometry.now stripe.now
        (block % SECTOR) block coefficients.old coefficients.new }
{
    let blocks = usize::from(geometry.u());
    let byte = usize::from(block) % SECTOR;
    for row in 0..geometry.r() {
        for slot in 0..geometry.n() {
            if let Part::Parity(parity) = part_at(geometry, parts, row, slot) {
                coefficients[usize::from(parity) * blocks + usize::from(block)] = stripe.cell(
                    row, slot,
                )[byte];
            }
        }
    }
}
