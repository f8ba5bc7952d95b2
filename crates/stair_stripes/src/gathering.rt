// Gathering the cells of a stripe.
ghost use Rattle.std.specs.Prelude.{◌≡◌, ◌+◌, ◌*◌, ◌<◌, ◌≤◌, ◌⊎◌, ◌↔◌, ℕ, IsTrue};
ghost use Rattle.stair_model.specs.CellSet.{HasCell, IsCellSet, IsInStripe, cell_count, count_in_slot};
ghost use Rattle.stair_model.specs.Slots.{HasSlot, IsSlotSet};
ghost use Rattle.stair_model.specs.Stripe.{IsStripeOf};
ghost use Rattle.stair_rack.specs.RackCounts.{RisesAtMost};
ghost use Rattle.stair_rack.specs.Told.{told};
ghost use Rattle.stair_stripes.specs.Gathering.{Gathers, IsCellOf};
ghost use Rattle.stair_stripes.specs.Reads.{ReadsInTurn};
ghost use Rattle.stair_stripes.specs.GatheringSteps.{ErasesChunk, GoesOn};

use stair_base::{CellSet, Geometry, SECTOR, Slots, Stripe};
use stair_rack::{Got, Rack};

/// What gathering cells of a stripe found.
#[derive(Clone, Copy, Debug)]
pub struct Gathered {
    /// The cells that weren't given: those of slots that aren't live or were gone, and those that read as bad.
    pub erased: CellSet,
    /// The slots that were gone.
    pub gone: Slots,
}

/// Reads the cells of a stripe, which is below the geometry's stripes, into `into`: slot by slot in rising order, and
/// of each live slot row by row, each cell once.
///
/// A slot that was gone isn't asked again, and all its cells are erased, as are those of a slot that isn't live. A cell
/// that isn't erased has the bytes that were read. One that is erased is left as it was, or, where its slot was gone,
/// has the bytes that were read before.
pub fn gather<R: Rack>(
    rack: &mut R,
    geometry: &Geometry,
    live: Slots,
    stripe: u32,
    into: &mut Stripe,
) -> Gathered
    requires number { stripe < geometry.now.stripes }
    requires stripe { IsStripeOf geometry.now into.old }
    ensures does { Gathers geometry.now live stripe (IsCellOf geometry.now) result into.old into.new
        (told R.Rack rack.old) (told R.Rack rack.new) }
    ensures in_turn { IsTrue R.is_honest →
        ReadsInTurn geometry.now live stripe (IsCellOf geometry.now) result.gone
        (R.history rack.old) (R.history rack.new) }
    ensures reads { RisesAtMost (geometry.now.r * geometry.now.n) (R.reads rack.old)
        (R.reads rack.new) }
{
    gather_cells(rack, geometry, live, stripe, &geometry.cells(), into)
}

/// Reads these cells of a stripe alone, in the order of [`gather`] and with its promise for them. Every other cell of
/// `into` is left as it was, and isn't erased.
pub fn gather_cells<R: Rack>(
    rack: &mut R,
    geometry: &Geometry,
    live: Slots,
    stripe: u32,
    wanted: &CellSet,
    into: &mut Stripe,
) -> Gathered
    requires number { stripe < geometry.now.stripes }
    requires stripe { IsStripeOf geometry.now into.old }
    requires wanted { IsInStripe geometry.now wanted.now }
    ensures does { Gathers geometry.now live stripe (HasCell wanted.now) result into.old into.new
        (told R.Rack rack.old) (told R.Rack rack.new) }
    ensures in_turn { IsTrue R.is_honest →
        ReadsInTurn geometry.now live stripe (HasCell wanted.now) result.gone
        (R.history rack.old) (R.history rack.new) }
    ensures reads { RisesAtMost (cell_count wanted.now) (R.reads rack.old) (R.reads rack.new) }
{
    let mut gathered = Gathered {
        erased: CellSet::empty(),
        gone: Slots::empty(),
    };
    for slot in 0..geometry.n() {
        if live.has(slot) {
            gather_chunk(rack, geometry, stripe, slot, wanted, into, &mut gathered);
        } else {
            erase_chunk(geometry, slot, wanted, &mut gathered.erased);
        }
    }
    gathered
}

// Reads the wanted cells of one slot's chunk, up to the first that is gone.
fn gather_chunk<R: Rack>(
    rack: &mut R,
    geometry: &Geometry,
    stripe: u32,
    slot: u8,
    wanted: &CellSet,
    into: &mut Stripe,
    gathered: &mut Gathered,
)
    requires slot_in { slot < geometry.now.n }
    requires number { stripe < geometry.now.stripes }
    requires shape { IsStripeOf geometry.now into.old }
    requires wanted { IsInStripe geometry.now wanted.now }
    requires erased { IsCellSet gathered.old.erased }
    ensures gathered { GoesOn geometry.now stripe wanted.now slot (slot + 1) 0
        gathered.old gathered.new into.old into.new (told R.Rack rack.old) (told R.Rack rack.new) }
    ensures reads { RisesAtMost (count_in_slot wanted.now slot) (R.reads rack.old)
        (R.reads rack.new) }
{
    let mut bytes = [0; SECTOR];
    for row in 0..geometry.r() {
        if wanted.has(row, slot) {
            match rack.read(slot, geometry.cell_sector(stripe, row), &mut bytes) {
                Got::Good => into.put(row, slot, &bytes),
                Got::Bad => gathered.erased.add(row, slot),
                Got::Gone => return lose_chunk(geometry, slot, wanted, gathered),
            }
        }
    }
}

// A slot that is gone loses the wanted cells of its chunk, also those that were read before.
fn lose_chunk(geometry: &Geometry, slot: u8, wanted: &CellSet, gathered: &mut Gathered)
    requires slot_in { slot < 32 }
    requires wanted { IsInStripe geometry.now wanted.now }
    requires erased { IsCellSet gathered.old.erased }
    ensures gone { (j : ℕ) →
        HasSlot gathered.new.gone j ↔ (HasSlot gathered.old.gone j ⊎ (j ≡ slot)) }
    ensures formed_gone { IsSlotSet gathered.new.gone }
    ensures erased { ErasesChunk wanted.now slot gathered.old.erased gathered.new.erased }
{
    gathered.gone.add(slot);
    erase_chunk(geometry, slot, wanted, &mut gathered.erased);
}

// Erases the wanted cells of one slot's chunk.
fn erase_chunk(geometry: &Geometry, slot: u8, wanted: &CellSet, erased: &mut CellSet)
    requires slot_in { slot < 32 }
    requires wanted { IsInStripe geometry.now wanted.now }
    requires erased { IsCellSet erased.old }
    ensures { ErasesChunk wanted.now slot erased.old erased.new }
{
    for row in 0..geometry.r() {
        if wanted.has(row, slot) {
            erased.add(row, slot);
        }
    }
}
