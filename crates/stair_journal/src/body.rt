// What the body of a redo says.
ghost use Rattle.std.specs.Prelude.{◌≡◌, ◌+◌, ◌*◌, ◌<◌, IsTrue, if◌then◌else◌};
ghost use Rattle.stair_model.specs.CellSet.{cell_count};
ghost use Rattle.stair_model.specs.Slots.{IsSlotSet, has_slot, no_slots, slot_count};
ghost use Rattle.stair_model.specs.Stripe.{IsStripeOf};
ghost use Rattle.stair_rack.specs.RackCounts.{RisesAtMost};
ghost use Rattle.stair_rack.specs.Told.{told};
ghost use Rattle.stair_journal.specs.BodySteps.{Asks, AsksSlot, AsksSlots, IsAnswer, IsFound, IsReadTo, ReadsCell, Standing, standing};
ghost use Rattle.stair_journal.specs.Bodies.{ReadsBody};
ghost use Rattle.stair_journal.specs.Reads.{AsksInTurn, asking};
ghost use Rattle.stair_journal.specs.Redo.{IsRedo};

use crate::redo::Redo;
use stair_base::{Geometry, SECTOR, Slots, Stripe};
use stair_rack::{Got, Rack};

/// What was found of the body of a redo.
#[derive(Clone, Copy, Debug, Drop)]
pub struct Body {
    /// The first sector of the body that no live slot gave; `None` where each was given.
    pub unread: Option<u32>,
    /// The slots that were gone.
    pub gone: Slots,
}

/// Reads the body of this redo into its cells of `into`, row by row, each from the lowest live slot that gives it.
///
/// For each cell the live slots are read in rising order, each once, up to the first that gives it; a slot that was
/// gone isn't asked again. A cell that none gives, and every cell that isn't one of the redo's, is left as it was.
pub fn read_body<R: Rack>(
    rack: &mut R,
    geometry: &Geometry,
    live: Slots,
    redo: &Redo,
    into: &mut Stripe,
) -> Body
    requires redo { IsRedo geometry.now redo.now }
    requires stripe { IsStripeOf geometry.now into.old }
    ensures does { ReadsBody geometry.now live redo.now result into.old into.new
        (told R.Rack rack.old) (told R.Rack rack.new) }
    ensures in_turn { IsTrue R.is_honest →
        AsksInTurn geometry.now live redo.now result.unread into.old into.new
        (asking no_slots (R.history rack.old)) (asking result.gone (R.history rack.new)) }
    ensures reads { RisesAtMost (cell_count redo.now.cells * slot_count live)
        (R.reads rack.old) (R.reads rack.new) }
{
    let mut body = Body {
        unread: None,
        gone: Slots::empty(),
    };
    for row in 0..geometry.r() {
        read_row(rack, geometry, live, redo, row, into, &mut body);
    }
    body
}

// Reads the redo's cells of one row, those of all rows before it being read.
fn read_row<R: Rack>(
    rack: &mut R,
    geometry: &Geometry,
    live: Slots,
    redo: &Redo,
    row: u8,
    into: &mut Stripe,
    body: &mut Body,
)
    requires row { row < geometry.now.r }
    requires redo { IsRedo geometry.now redo.now }
    requires stripe { IsStripeOf geometry.now into.old }
    ensures { (start : Standing) → IsReadTo geometry.now live redo.now row 0 start
        (standing body.old into.old (told R.Rack rack.old)
        (R.reads rack.old)) →
        IsReadTo geometry.now live redo.now (row + 1) 0 start (standing body.new into.new
        (told R.Rack rack.new)
        (R.reads rack.new)) }
{
    for chunk in 0..geometry.n() {
        if redo.cells.has(row, chunk) {
            read_cell(rack, geometry, live, row, chunk, into, body);
        }
    }
}

// Reads a cell from the lowest live slot that gives its sector.
fn read_cell<R: Rack>(
    rack: &mut R,
    geometry: &Geometry,
    live: Slots,
    row: u8,
    chunk: u8,
    into: &mut Stripe,
    body: &mut Body,
)
    requires row { row < geometry.now.r }
    requires chunk { chunk < geometry.now.n }
    requires stripe { IsStripeOf geometry.now into.old }
    ensures { ReadsCell geometry.now live row chunk
        (standing body.old into.old (told R.Rack rack.old)
        (R.reads rack.old))
        (standing body.new into.new (told R.Rack rack.new)
        (R.reads rack.new)) }
{
    let sector = geometry.body_sector(row, chunk);
    let mut bytes = [0; SECTOR];
    match find(rack, live, sector, &mut body.gone, &mut bytes) {
        Found::Here => into.put(row, chunk, &bytes),
        Found::Nowhere => body.unread = Some(body.unread.unwrap_or(sector)),
    }
}

// Where a sector was found.
#[derive(Clone, Copy, Drop)]
enum Found {
    Here,
    Nowhere,
}

// Asks the live slots for a sector in rising order, up to the first that gives it.
fn find<R: Rack>(
    rack: &mut R,
    live: Slots,
    sector: u32,
    gone: &mut Slots,
    bytes: &mut [u8; SECTOR],
) -> Found
    ensures asks { Asks live (λ k. k ≡ sector) gone.old gone.new (told R.Rack rack.old)
        (told R.Rack rack.new) }
    ensures does { IsFound live sector gone.new bytes.new (told R.Rack rack.old)
        (told R.Rack rack.new) result }
    ensures in_turn { IsTrue R.is_honest → AsksSlots live sector bytes.new
        (asking gone.old (R.history rack.old)) (asking gone.new (R.history rack.new)) result }
    ensures reads { RisesAtMost (slot_count live) (R.reads rack.old) (R.reads rack.new) }
{
    for slot in 0..32 {
        match ask(rack, live, slot, sector, gone, bytes) {
            Found::Here => return Found::Here,
            Found::Nowhere => {}
        }
    }
    Found::Nowhere
}

// Asks one slot, where it is live and wasn't gone, for a sector.
fn ask<R: Rack>(
    rack: &mut R,
    live: Slots,
    slot: u8,
    sector: u32,
    gone: &mut Slots,
    bytes: &mut [u8; SECTOR],
) -> Found
    requires { slot < 32 }
    ensures asks { Asks live (λ k. k ≡ sector) gone.old gone.new (told R.Rack rack.old)
        (told R.Rack rack.new) }
    ensures does { IsAnswer live slot sector gone.new bytes.new (told R.Rack rack.old)
        (told R.Rack rack.new) result }
    ensures in_turn { IsTrue R.is_honest → AsksSlot live slot sector bytes.new
        (asking gone.old (R.history rack.old)) (asking gone.new (R.history rack.new)) result }
    ensures reads { RisesAtMost (if has_slot live slot then 1 else 0)
        (R.reads rack.old) (R.reads rack.new) }
    ensures formed { IsSlotSet live }
{
    if !live.has(slot) || gone.has(slot) {
        return Found::Nowhere;
    }
    match rack.read(slot, sector, bytes) {
        Got::Good => Found::Here,
        Got::Bad => Found::Nowhere,
        Got::Gone => {
            gone.add(slot);
            Found::Nowhere
        }
    }
}
