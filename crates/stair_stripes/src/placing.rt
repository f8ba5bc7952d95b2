// Placing the cells of a redo.
ghost use Rattle.std.specs.Prelude.{◌≡◌, ◌<◌, ℕ, IsTrue};
ghost use Rattle.stair_model.specs.Stripe.{IsStripeOf};
ghost use Rattle.stair_rack.specs.Count.{Rose};
ghost use Rattle.stair_rack.specs.History.{SlotCall};
ghost use Rattle.stair_rack.specs.Placed.{IsGoneSlot, IsSlot};
ghost use Rattle.stair_rack.specs.RackCounts.{NoneFalls};
ghost use Rattle.stair_rack.specs.Stretch.{WasAnswered};
ghost use Rattle.stair_rack.specs.Told.{told};
ghost use Rattle.stair_rack.specs.Writing.{IsOnSlot, Writing};
ghost use Rattle.stair_journal.specs.Phases.{AnswersGone, DoesPhase};
ghost use Rattle.stair_journal.specs.Redo.{IsRedo};
ghost use Rattle.stair_stripes.specs.Placing.{cell_writes};

use stair_base::{Geometry, Slots, Stripe};
use stair_journal::Redo;
use stair_rack::{Rack, Reply, sync_rest};

/// Writes the redo's cells of `stripe` that lie on the slots of `to`, syncs these slots, and answers those that were gone.
///
/// On a slot that isn't answered its cells are safe from a crash. On one that is, each of them may be left as it was,
/// written or torn.
pub fn place<R: Rack>(
    rack: &mut R,
    geometry: &Geometry,
    to: Slots,
    redo: &Redo,
    stripe: &Stripe,
) -> Slots
    requires redo { IsRedo geometry.now redo.now }
    requires stripe { IsStripeOf geometry.now stripe.now }
    ensures does { DoesPhase (cell_writes geometry.now redo.now stripe.now) to result
        (told R.Rack rack.old) (told R.Rack rack.new) }
    ensures reads { R.reads rack.new ≡ R.reads rack.old }
{
    let mut gone = Slots::empty();
    for slot in 0..geometry.n() {
        if to.has(slot) && write_chunk(rack, geometry, slot, redo, stripe) == Reply::Gone {
            gone.add(slot);
        }
    }
    sync_rest(rack, to, gone)
}

/// Writes the redo's cells of `stripe` that lie on this slot, row after row, up to the first that is gone, and syncs
/// nothing.
///
/// - `Done`: its sectors read as these cells, which are safe from a crash once the slot was synced.
/// - `Gone`: each of them may be left as it was, or written.
pub fn write_chunk<R: Rack>(
    rack: &mut R,
    geometry: &Geometry,
    slot: u8,
    redo: &Redo,
    stripe: &Stripe,
) -> Reply
    requires slot_in { slot < geometry.now.n }
    requires redo { IsRedo geometry.now redo.now }
    requires stripe { IsStripeOf geometry.now stripe.now }
    ensures does { IsTrue R.is_honest →
        Writing (cell_writes geometry.now redo.now stripe.now) (IsSlot slot)
        (IsGoneSlot slot result) (IsOnSlot slot) (R.history rack.old)
        (R.history rack.new) }
    ensures told_gone { IsTrue R.is_honest → (j : ℕ) (call : SlotCall) →
        WasAnswered j call (R.history rack.old) (R.history rack.new) → AnswersGone call →
        IsGoneSlot slot result j }
    ensures gone { result ≡ Reply.Gone → Rose (R.gones rack.old slot) (R.gones rack.new slot) }
    ensures counts { NoneFalls (R.bads rack.old) (R.bads rack.new) (R.gones rack.old)
        (R.gones rack.new) }
    ensures reads { R.reads rack.new ≡ R.reads rack.old }
{
    for row in 0..geometry.r() {
        if redo.cells.has(row, slot)
            && rack.write(
                slot,
                geometry.cell_sector(redo.stripe, row),
                stripe.cell(row, slot),
            ) == Reply::Gone
        {
            return Reply::Gone;
        }
    }
    Reply::Done
}
