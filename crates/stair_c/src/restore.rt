ghost use Rattle.std.specs.Prelude.{
  ◌≡◌,
  ◌⊎◌,
  ◌↔◌,
  ℕ,
  ◌*◌,
  ◌<◌,
  ◌≤◌,
  IfNone,
  IfSome,
  IsTrue,
  length,
  replicate,
};
ghost use Rattle.stair_model.specs.CellSet.{HasCell, IsCellSet};
ghost use Rattle.stair_model.specs.Geometry.{geometry_of};
ghost use Rattle.stair_model.specs.Stripe.{IsStripeOf, IsWellFormed, cell};
ghost use Rattle.stair_c.specs.Chunks.{HasStripes, IsSameAt, IsStripeAt, sector_at};
ghost use Rattle.stair_c.specs.Restores.{AreErasedAt, IsCoveredAt, IsErased, IsRestoredAt, Restores};

use crate::stripes::{first_sector, load, store_chunk, stripe_count};
use stair_base::{CellSet, Geometry, SECTOR, Stripe, covered};
use stair_canon::Canon;
use stair_up::decode_upstairs;
use std::alloc::Global;

const OK: u32 = 0;

const SIZE: u32 = 9;

const LOST: u32 = 11;

const MEMORY: u32 = 13;

/// Restores the erased cells of the stripes in place. Memory is laid out as [`stair_encode`](crate::stair_encode) has it.
///
/// `erased` has a byte for each sector, in the same order, which isn't 0 where the sector is erased. What erased sectors hold
/// doesn't matter. All memory that the call needs is allocated before the first write. Each status but 0 leaves the sectors as
/// they were:
///
/// - 0: each stripe is the codeword that has its sectors that weren't erased, if there is one; these are as they were.
/// - 1 to 8: the first broken limit of the geometry.
/// - 9: the sectors aren't whole stripes, or there are more or fewer bytes in `erased`.
/// - 11: of some stripe the erased cells aren't covered by the code.
/// - 13: out of memory.
#[unsafe(no_mangle)]
pub extern "C" fn stair_restore(
    alloc: Global,
    n: u64,
    m: u64,
    r: u64,
    e: &[u64],
    erased: &[u8],
    sectors: &mut [[u8; SECTOR]],
) -> u32
    ensures { Restores (geometry_of n m r e.now 1 (replicate 16 0)) erased.now sectors.old
        sectors.new result }
{
    let geometry = match Geometry::large(n, m, r, e, 1, [0; 16]) {
        Ok(geometry) => geometry,
        Err(fault) => return u32::from(fault.limit),
    };
    let Some(count) = stripe_count(&geometry, sectors.len()) else {
        return SIZE;
    };
    if erased.len() != sectors.len() {
        return SIZE;
    }
    if let Some(_stripe) = first_lost(&geometry, count, erased) {
        return LOST;
    }
    let Ok(mut canon) = Canon::new(alloc, &geometry) else {
        return MEMORY;
    };
    let Ok(mut stripe) = Stripe::new(alloc, &geometry) else {
        return MEMORY;
    };
    restore_each(&mut canon, &geometry, &mut stripe, count, erased, sectors);
    OK
}

/// Restores each stripe of `count` in place.
fn restore_each(
    canon: &mut Canon,
    geometry: &Geometry,
    stripe: &mut Stripe,
    count: usize,
    erased: &[u8],
    sectors: &mut [[u8; SECTOR]],
)
    requires fits { canon.old.geometry ≡ geometry.now }
    requires of { IsStripeOf geometry.now stripe.old }
    requires formed { IsWellFormed stripe.old }
    requires whole { HasStripes geometry.now count sectors.old }
    requires marks { length erased.now ≡ length sectors.old }
    requires covered { (s : ℕ) → s < count → IsCoveredAt geometry.now count erased.now s }
    ensures whole { HasStripes geometry.now count sectors.new }
    ensures restored { (s : ℕ) → s < count →
        IsRestoredAt geometry.now count erased.now sectors.old sectors.new s }
{
    for number in 0..count {
        restore_stripe(canon, geometry, stripe, count, number, erased, sectors);
    }
}

/// Restores this stripe of `count` in place; the sectors of all other stripes stay.
fn restore_stripe(
    canon: &mut Canon,
    geometry: &Geometry,
    stripe: &mut Stripe,
    count: usize,
    number: usize,
    erased: &[u8],
    sectors: &mut [[u8; SECTOR]],
)
    requires fits { canon.old.geometry ≡ geometry.now }
    requires of { IsStripeOf geometry.now stripe.old }
    requires formed { IsWellFormed stripe.old }
    requires whole { HasStripes geometry.now count sectors.old }
    requires marks { length erased.now ≡ length sectors.old }
    requires number_in { number < count }
    requires covered { IsCoveredAt geometry.now count erased.now number }
    ensures whole { HasStripes geometry.now count sectors.new }
    ensures restored { IsRestoredAt geometry.now count erased.now sectors.old sectors.new number }
    ensures others { (s : ℕ) → s < count → ¬ (s ≡ number) →
        IsSameAt geometry.now count sectors.old sectors.new s }
    ensures fits { canon.new.geometry ≡ geometry.now }
    ensures of { IsStripeOf geometry.now stripe.new }
    ensures formed { IsWellFormed stripe.new }
{
    let cells = erased_cells(geometry, count, erased, number);
    load(geometry, count, sectors, number, stripe);
    if is_whole(geometry, &cells) {
        return;
    }
    // The cells are covered, so it succeeds.
    let _ = decode_upstairs(canon, stripe, &cells);
    store_cells(geometry, count, sectors, number, &cells, stripe);
}

/// Returns whether no cell of the stripe is erased.
fn is_whole(geometry: &Geometry, erased: &CellSet) -> bool
    ensures { IsTrue result → (i j : ℕ) → i < geometry.now.r → j < geometry.now.n →
        ¬ HasCell erased.now i j }
{
    for slot in 0..geometry.n() {
        if held_rows(geometry, erased, slot) < geometry.r() {
            return false;
        }
    }
    true
}

/// Stores the cells of this stripe of `count` from the first erased one of each chunk on. The others have the bytes of their
/// sectors. The sectors of all other stripes stay.
fn store_cells(
    geometry: &Geometry,
    count: usize,
    sectors: &mut [[u8; SECTOR]],
    stripe: usize,
    erased: &CellSet,
    cells: &Stripe,
)
    requires whole { HasStripes geometry.now count sectors.old }
    requires stripe_in { stripe < count }
    requires of { IsStripeOf geometry.now cells.now }
    requires formed { IsWellFormed cells.now }
    requires held { (i j : ℕ) → i < geometry.now.r → j < geometry.now.n → ¬ HasCell erased.now i j →
        cell cells.now i j ≡ sector_at geometry.now count sectors.old stripe i j }
    ensures whole { HasStripes geometry.now count sectors.new }
    ensures stored { IsStripeAt geometry.now count sectors.new stripe cells.now }
    ensures others { (s : ℕ) → s < count → ¬ (s ≡ stripe) →
        IsSameAt geometry.now count sectors.old sectors.new s }
{
    for slot in 0..geometry.n() {
        let from = held_rows(geometry, erased, slot);
        store_chunk(geometry, count, sectors, stripe, slot, from, cells);
    }
}

/// How many cells of the chunk in this slot precede the first erased one.
fn held_rows(geometry: &Geometry, erased: &CellSet, slot: u8) -> u8
    requires { slot < geometry.now.n }
    ensures within { result ≤ geometry.now.r }
    ensures held { (i : ℕ) → i < result → ¬ HasCell erased.now i slot }
{
    for row in 0..geometry.r() {
        if erased.has(row, slot) {
            return row;
        }
    }
    geometry.r()
}

/// The first stripe of `count` whose erased cells aren't covered.
fn first_lost(geometry: &Geometry, count: usize, erased: &[u8]) -> Option<usize>
    requires marks { length erased.now ≡ geometry.now.n * count * geometry.now.r }
    ensures none { IfNone result ((s : ℕ) → s < count → IsCoveredAt geometry.now count erased.now s) }
    ensures below { IfSome result (λ s. s < count) }
    ensures lost { IfSome result (λ s. ¬ IsCoveredAt geometry.now count erased.now s) }
{
    for number in 0..count {
        let cells = erased_cells(geometry, count, erased, number);
        if !covered(geometry, &cells) {
            return Some(number);
        }
    }
    None
}

/// The erased cells of this stripe of `count`.
fn erased_cells(geometry: &Geometry, count: usize, erased: &[u8], stripe: usize) -> CellSet
    requires marks { length erased.now ≡ geometry.now.n * count * geometry.now.r }
    requires stripe_in { stripe < count }
    ensures { AreErasedAt geometry.now count erased.now stripe result }
{
    let mut cells = CellSet::empty();
    for slot in 0..geometry.n() {
        add_chunk(geometry, count, erased, stripe, slot, &mut cells);
    }
    cells
}

/// Adds the erased cells of the chunk in this slot, of this stripe of `count`.
fn add_chunk(
    geometry: &Geometry,
    count: usize,
    erased: &[u8],
    stripe: usize,
    slot: u8,
    cells: &mut CellSet,
)
    requires marks { length erased.now ≡ geometry.now.n * count * geometry.now.r }
    requires stripe_in { stripe < count }
    requires slot_in { slot < geometry.now.n }
    requires formed { IsCellSet cells.old }
    ensures members { (i j : ℕ) → HasCell cells.new i j ↔ (HasCell cells.old i j
        ⊎ ((i < geometry.now.r) × (j ≡ slot) × IsErased geometry.now count erased.now stripe i j)) }
    ensures formed { IsCellSet cells.new }
{
    let first = first_sector(geometry, count, erased.len(), stripe, slot);
    for row in 0..geometry.r() {
        if erased[first + usize::from(row)] != 0 {
            cells.add(row, slot);
        }
    }
}
