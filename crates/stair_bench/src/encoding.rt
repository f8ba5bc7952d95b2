ghost use Rattle.std.specs.Prelude.{◌≡◌, ◌<◌, ℕ, IfOk};
ghost use Rattle.stair_model.specs.Cell.{Data, cell_at};
ghost use Rattle.stair_model.specs.Geometry.{IsWithinLimits};
ghost use Rattle.stair_model.specs.Stripe.{IsStripeOf};

use crate::check::{check_of_blocks, check_of_stripe};
use crate::varied::varied;
use stair_base::{Geometry, Kind, Place, SECTOR, Stripe, StripeCode};
use stair_codec::{By, Codec};
use stair_gf::Steps;
use std::alloc::{AllocError, Global};
use std::sync::ledger::{Blank, Ledger};

/// The bytes of each parity before the first round.
pub(crate) const BEFORE: [u8; SECTOR] = [0xA5; SECTOR];

/// Encodes a stripe so many times, and returns a check of all its cells.
pub(crate) fn check_of_encoding<L: Ledger>(
    alloc: Global,
    by: By,
    geometry: &Geometry,
    rounds: u32,
    blank: Blank,
) -> Result<u64, AllocError>
    requires name { blank.name ≡ L.name }
    requires parts { blank.parts ≡ L.parts }
    requires some { 0 < L.parts }
{
    let mut stripe = varied_stripe(alloc, geometry)?;
    let mut code = Codec::new(alloc, geometry, by)?;
    encode_rounds::<L, Codec>(geometry, &mut code, &mut stripe, rounds, blank);
    Ok(check_of_stripe(geometry, &stripe))
}

/// Encodes this stripe so many times.
fn encode_rounds<L: Ledger, C: StripeCode>(
    geometry: &Geometry,
    code: &mut C,
    stripe: &mut Stripe,
    rounds: u32,
    blank: Blank,
)
    requires name { blank.name ≡ L.name }
    requires parts { blank.parts ≡ L.parts }
    requires some { 0 < L.parts }
    requires shape { C.shape code.old ≡ geometry.now }
    requires of { IsStripeOf geometry.now stripe.old }
    ensures { IsStripeOf geometry.now stripe.new }
{
    let mut steps = Steps::<L>::new(blank);
    for _round in 0..rounds {
        code.encode(stripe, &mut steps);
    }
}

/// Encodes a stripe once, sets its middle block to the same other bytes so many times, and returns a check of all its cells.
pub(crate) fn check_of_updating<L: Ledger>(
    alloc: Global,
    geometry: &Geometry,
    rounds: u32,
    blank: Blank,
) -> Result<u64, AllocError>
    requires name { blank.name ≡ L.name }
    requires parts { blank.parts ≡ L.parts }
    requires some { 0 < L.parts }
{
    let mut stripe = varied_stripe(alloc, geometry)?;
    let mut code = Codec::new(alloc, geometry, By::Fewest)?;
    update_rounds::<L, Codec>(geometry, &mut code, &mut stripe, rounds, blank);
    Ok(check_of_stripe(geometry, &stripe))
}

/// Encodes this stripe once, and sets its middle block to the same other bytes so many times.
fn update_rounds<L: Ledger, C: StripeCode>(
    geometry: &Geometry,
    code: &mut C,
    stripe: &mut Stripe,
    rounds: u32,
    blank: Blank,
)
    requires name { blank.name ≡ L.name }
    requires parts { blank.parts ≡ L.parts }
    requires some { 0 < L.parts }
    requires shape { C.shape code.old ≡ geometry.now }
    requires of { IsStripeOf geometry.now stripe.old }
    ensures { IsStripeOf geometry.now stripe.new }
{
    let mut steps = Steps::<L>::new(blank);
    code.encode(stripe, &mut steps);
    let middle = middle_block(geometry);
    let bytes = varied(1023);
    for _round in 0..rounds {
        code.update(stripe, middle.row, middle.slot, &bytes, &mut steps);
    }
}

/// Returns the location of the middle block of the array.
pub(crate) fn middle_block(geometry: &Geometry) -> Place
    ensures row_in { result.row < geometry.now.r }
    ensures slot_in { result.slot < geometry.now.n }
    ensures data { (d : ℕ) × (cell_at geometry.now result.row result.slot ≡ Data d) }
    ensures limits { IsWithinLimits geometry.now }
{
    geometry.place_of(geometry.blocks() / 2)
}

/// Copies all data cells of a stripe so many times, and returns a check of the copies.
pub(crate) fn check_of_copying_cells(
    alloc: Global,
    geometry: &Geometry,
    rounds: u32,
) -> Result<u64, AllocError> {
    let blocks = varied_blocks(alloc, geometry)?;
    let mut copies = vec![in alloc; [0; SECTOR]; blocks.len()]?;
    for _round in 0..rounds {
        copies.copy_from_slice(&blocks);
    }
    Ok(check_of_blocks(&copies))
}

/// Returns a stripe whose data cells vary with their numbers among all cells, row by row.
pub(crate) fn varied_stripe(alloc: Global, geometry: &Geometry) -> Result<Stripe, AllocError>
    ensures { IfOk result (λ stripe. IsStripeOf geometry.now stripe) }
{
    let mut stripe = Stripe::new(alloc, geometry)?;
    for row in 0..geometry.r() {
        for slot in 0..geometry.n() {
            let bytes = match geometry.kind(row, slot) {
                Kind::Block(_) => varied(cell_number(geometry, row, slot)),
                Kind::Global { .. } | Kind::Parity(_) => BEFORE,
            };
            stripe.put(row, slot, &bytes);
        }
    }
    Ok(stripe)
}

/// Returns the data cells of that stripe, row by row.
fn varied_blocks(alloc: Global, geometry: &Geometry) -> Result<Vec<[u8; SECTOR]>, AllocError> {
    let mut blocks = Vec::with_capacity(alloc, usize::from(geometry.u()))?;
    for row in 0..geometry.r() {
        for slot in 0..geometry.n() {
            if let Kind::Block(_) = geometry.kind(row, slot) {
                blocks.push(varied(cell_number(geometry, row, slot)))?;
            }
        }
    }
    Ok(blocks)
}

/// Returns the number of a cell among all cells of a stripe, row by row.
fn cell_number(geometry: &Geometry, row: u8, slot: u8) -> u16
    requires row_in { row < geometry.now.r }
    requires slot_in { slot < geometry.now.n }
    ensures { result < 1024 }
{
    u16::from(row) * u16::from(geometry.n()) + u16::from(slot)
}
