ghost use Rattle.std.specs.Prelude.{◌≡◌, ℕ, ◌+◌, ◌*◌, ◌<◌, ◌≤◌, IfNone, IfSome, length};
ghost use Rattle.stair_model.specs.Cell.{Data, cell_at};
ghost use Rattle.stair_model.specs.Stripe.{IsStripeOf, IsWellFormed, cell};
ghost use Rattle.stair_c.specs.Encoders.{shape};
ghost use Rattle.stair_c.specs.Chunks.{HasChunkOf, HasDataOf, HasStripes, IsCodewordAt, IsEncodedAt, IsSameAt, IsStripeAt, sector_at};

use crate::encoders::{Prepared, encode};
use stair_base::{Geometry, SECTOR, Stripe, first_broken};
use stair_gf::Steps;
use std::sync::ledger::{Blank, Ledger};

/// How many stripes these sectors are, or None where they aren't whole stripes.
pub(crate) fn stripe_count(geometry: &Geometry, sectors: usize) -> Option<usize>
    ensures some { IfSome result (λ k. sectors ≡ geometry.now.n * k * geometry.now.r) }
    ensures none { IfNone result ((k : ℕ) → ¬ (sectors ≡ geometry.now.n * k * geometry.now.r)) }
{
    let cells = usize::from(geometry.n()) * usize::from(geometry.r());
    if sectors % cells == 0 {
        Some(sectors / cells)
    } else {
        None
    }
}

/// The number of the first sector of the chunk in this slot, of this stripe of `count`. Its r sectors follow one another.
pub(crate) fn first_sector(
    geometry: &Geometry,
    count: usize,
    sectors: usize,
    stripe: usize,
    slot: u8,
) -> usize
    requires whole { sectors ≡ geometry.now.n * count * geometry.now.r }
    requires stripe_in { stripe < count }
    requires slot_in { slot < geometry.now.n }
    ensures value { result ≡ (slot * count + stripe) * geometry.now.r }
    ensures within { result + geometry.now.r ≤ sectors }
{
    let rows = usize::from(geometry.r());
    (usize::from(slot) * count + stripe) * rows
}

/// Loads the first `rows` sectors of the chunk in this slot, of this stripe of `count`; the cells of all other chunks stay.
fn load_chunk(
    geometry: &Geometry,
    count: usize,
    sectors: &[[u8; SECTOR]],
    stripe: usize,
    slot: u8,
    rows: u8,
    into: &mut Stripe,
)
    requires whole { HasStripes geometry.now count sectors.now }
    requires stripe_in { stripe < count }
    requires slot_in { slot < geometry.now.n }
    requires rows_in { rows ≤ geometry.now.r }
    requires of { IsStripeOf geometry.now into.old }
    requires formed { IsWellFormed into.old }
    ensures of { IsStripeOf geometry.now into.new }
    ensures formed { IsWellFormed into.new }
    ensures loaded { HasChunkOf geometry.now count sectors.now stripe into.new slot rows }
    ensures others { (i j : ℕ) → j < geometry.now.n → ¬ (j ≡ slot) →
        cell into.new i j ≡ cell into.old i j }
{
    let first = first_sector(geometry, count, sectors.len(), stripe, slot);
    for row in 0..rows {
        into.put(row, slot, &sectors[first + usize::from(row)]);
    }
}

/// Loads this stripe of `count`.
pub(crate) fn load(
    geometry: &Geometry,
    count: usize,
    sectors: &[[u8; SECTOR]],
    stripe: usize,
    into: &mut Stripe,
)
    requires whole { HasStripes geometry.now count sectors.now }
    requires stripe_in { stripe < count }
    requires of { IsStripeOf geometry.now into.old }
    requires formed { IsWellFormed into.old }
    ensures { IsStripeAt geometry.now count sectors.now stripe into.new }
{
    for slot in 0..geometry.n() {
        load_chunk(geometry, count, sectors, stripe, slot, geometry.r(), into);
    }
}

/// Loads the data cells of this stripe of `count`.
fn load_data(
    geometry: &Geometry,
    count: usize,
    sectors: &[[u8; SECTOR]],
    stripe: usize,
    into: &mut Stripe,
)
    requires whole { HasStripes geometry.now count sectors.now }
    requires stripe_in { stripe < count }
    requires of { IsStripeOf geometry.now into.old }
    requires formed { IsWellFormed into.old }
    ensures of { IsStripeOf geometry.now into.new }
    ensures loaded { HasDataOf geometry.now count sectors.now stripe into.new }
{
    for slot in 0..geometry.n() {
        let rows = data_rows(geometry, slot);
        load_chunk(geometry, count, sectors, stripe, slot, rows, into);
    }
}

/// Stores the chunk in this slot from row `from` on, of this stripe of `count`; all other sectors stay.
///
/// The rows before have the bytes of their sectors.
pub(crate) fn store_chunk(
    geometry: &Geometry,
    count: usize,
    sectors: &mut [[u8; SECTOR]],
    stripe: usize,
    slot: u8,
    from: u8,
    cells: &Stripe,
)
    requires whole { HasStripes geometry.now count sectors.old }
    requires stripe_in { stripe < count }
    requires slot_in { slot < geometry.now.n }
    requires from_in { from ≤ geometry.now.r }
    requires of { IsStripeOf geometry.now cells.now }
    requires before { HasChunkOf geometry.now count sectors.old stripe cells.now slot from }
    ensures whole { HasStripes geometry.now count sectors.new }
    ensures stored { HasChunkOf geometry.now count sectors.new stripe cells.now slot geometry.now.r }
    ensures others { (s i j : ℕ) → s < count → i < geometry.now.r → ¬ ((s ≡ stripe) × (j ≡ slot)) →
        sector_at geometry.now count sectors.new s i j ≡ sector_at geometry.now count sectors.old s i j }
{
    let first = first_sector(geometry, count, sectors.len(), stripe, slot);
    for row in from..geometry.r() {
        sectors[first + usize::from(row)] = *cells.cell(row, slot);
    }
}

/// How many cells of the chunk in this slot precede its parities. The global parities of a class are the chunk's last cells.
pub(crate) fn data_rows(geometry: &Geometry, slot: u8) -> u8
    requires { slot < geometry.now.n }
    ensures within { result ≤ geometry.now.r }
    ensures data { (i : ℕ) → i < result → (d : ℕ) × (cell_at geometry.now i slot ≡ Data d) }
    ensures all { (i d : ℕ) → i < geometry.now.r → cell_at geometry.now i slot ≡ Data d → i < result }
{
    let data_chunks = geometry.n() - geometry.m();
    let first_global_chunk = data_chunks - geometry.classes();
    if slot >= data_chunks {
        0
    } else if slot >= first_global_chunk {
        geometry.r() - geometry.coverage(slot - first_global_chunk)
    } else {
        geometry.r()
    }
}

/// Stores the parities of this stripe of `count`, whose data cells have the bytes of their sectors. The sectors of all other
/// stripes stay.
fn store_parities(
    geometry: &Geometry,
    count: usize,
    sectors: &mut [[u8; SECTOR]],
    stripe: usize,
    cells: &Stripe,
)
    requires whole { HasStripes geometry.now count sectors.old }
    requires stripe_in { stripe < count }
    requires of { IsStripeOf geometry.now cells.now }
    requires formed { IsWellFormed cells.now }
    requires data { HasDataOf geometry.now count sectors.old stripe cells.now }
    ensures whole { HasStripes geometry.now count sectors.new }
    ensures stored { IsStripeAt geometry.now count sectors.new stripe cells.now }
    ensures others { (s : ℕ) → s < count → ¬ (s ≡ stripe) →
        IsSameAt geometry.now count sectors.old sectors.new s }
{
    for slot in 0..geometry.n() {
        let from = data_rows(geometry, slot);
        store_chunk(geometry, count, sectors, stripe, slot, from, cells);
    }
}

/// Encodes each stripe of `count` in place.
pub(crate) fn encode_each<L: Ledger>(
    blank: Blank,
    prepared: &mut Prepared,
    geometry: &Geometry,
    stripe: &mut Stripe,
    count: usize,
    sectors: &mut [[u8; SECTOR]],
)
    requires name { blank.name ≡ L.name }
    requires parts { blank.parts ≡ L.parts }
    requires some { 0 < L.parts }
    requires fits { shape prepared.old ≡ geometry.now }
    requires of { IsStripeOf geometry.now stripe.old }
    requires formed { IsWellFormed stripe.old }
    requires whole { HasStripes geometry.now count sectors.old }
    ensures whole { HasStripes geometry.now count sectors.new }
    ensures encoded { (s : ℕ) → s < count →
        IsEncodedAt geometry.now count sectors.old sectors.new s }
{
    let mut steps = Steps::<L>::new(blank);
    for number in 0..count {
        load_data(geometry, count, sectors, number, stripe);
        encode(prepared, stripe, &mut steps);
        store_parities(geometry, count, sectors, number, stripe);
    }
}

/// The first stripe of `count` that isn't a codeword.
pub(crate) fn first_broken_stripe(
    geometry: &Geometry,
    stripe: &mut Stripe,
    count: usize,
    sectors: &[[u8; SECTOR]],
) -> Option<usize>
    requires of { IsStripeOf geometry.now stripe.old }
    requires formed { IsWellFormed stripe.old }
    requires whole { HasStripes geometry.now count sectors.now }
    ensures none { IfNone result ((s : ℕ) → s < count → IsCodewordAt geometry.now count sectors.now s) }
    ensures below { IfSome result (λ b. b < count) }
    ensures earlier { IfSome result (λ b. (s : ℕ) → s < b →
        IsCodewordAt geometry.now count sectors.now s) }
    ensures broken { IfSome result (λ b. ¬ IsCodewordAt geometry.now count sectors.now b) }
{
    for candidate in 0..count {
        load(geometry, count, sectors, candidate, stripe);
        if first_broken(geometry, stripe).is_some() {
            return Some(candidate);
        }
    }
    None
}
