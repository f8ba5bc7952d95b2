// What is written to the journal: the body of a redo, and gates.
ghost use Rattle.std.specs.Prelude.{◌≡◌, ◌<◌, ℕ, IsTrue};
ghost use Rattle.stair_model.specs.Stripe.{IsStripeOf};
ghost use Rattle.stair_rack.specs.Count.{Rose};
ghost use Rattle.stair_rack.specs.History.{SlotCall};
ghost use Rattle.stair_rack.specs.Placed.{IsGoneSlot, IsSlot};
ghost use Rattle.stair_rack.specs.RackCounts.{NoneFalls};
ghost use Rattle.stair_rack.specs.Stretch.{WasAnswered};
ghost use Rattle.stair_rack.specs.Told.{told};
ghost use Rattle.stair_rack.specs.Writing.{IsOnSlot, Writing};
ghost use Rattle.stair_journal.specs.Gate.{closed_gate as closed, open_gate as opened};
ghost use Rattle.stair_journal.specs.Journalling.{body_writes, gate_writes};
ghost use Rattle.stair_journal.specs.Phases.{AnswersGone, DoesPhase};
ghost use Rattle.stair_journal.specs.PhaseSteps.{IsInRow};
ghost use Rattle.stair_journal.specs.Redo.{IsRedo};

use crate::gate::{closed_gate, open_gate};
use crate::redo::Redo;
use stair_base::{GATE_SECTOR, Geometry, SECTOR, Slots, Stripe};
use stair_rack::{Rack, Reply, sync_rest, write_all};

/// Writes the body of this redo, its cells of `stripe`, to every live slot, syncs them, and answers those that were gone.
///
/// On a slot that isn't answered the body is safe from a crash. On one that is, each of its sectors may be left as it
/// was, written or torn.
pub fn write_body<R: Rack>(
    rack: &mut R,
    geometry: &Geometry,
    live: Slots,
    redo: &Redo,
    stripe: &Stripe,
) -> Slots
    requires redo { IsRedo geometry.now redo.now }
    requires stripe { IsStripeOf geometry.now stripe.now }
    ensures does { DoesPhase (body_writes geometry.now redo.now stripe.now) live result
        (told R.Rack rack.old) (told R.Rack rack.new) }
    ensures reads { R.reads rack.new ≡ R.reads rack.old }
{
    let mut gone = Slots::empty();
    for slot in 0..32u8 {
        if live.has(slot) && write_cells(rack, geometry, slot, redo, stripe) == Reply::Gone {
            gone.add(slot);
        }
    }
    sync_rest(rack, live, gone)
}

// Writes the body to one slot, up to the first sector that is gone.
fn write_cells<R: Rack>(
    rack: &mut R,
    geometry: &Geometry,
    slot: u8,
    redo: &Redo,
    stripe: &Stripe,
) -> Reply
    requires slot_in { slot < 32 }
    requires redo { IsRedo geometry.now redo.now }
    requires stripe { IsStripeOf geometry.now stripe.now }
    ensures does { IsTrue R.is_honest →
        Writing (body_writes geometry.now redo.now stripe.now) (IsSlot slot)
        (IsGoneSlot slot result) (IsOnSlot slot) (R.history rack.old)
        (R.history rack.new) }
    ensures told_gone { IsTrue R.is_honest → (j : ℕ) (call : SlotCall) →
        WasAnswered j call (R.history rack.old) (R.history rack.new) → AnswersGone call →
        IsGoneSlot slot result j }
    ensures gone { result ≡ Reply.Gone → Rose (R.gones rack.old slot) (R.gones rack.new slot) }
    ensures counts { NoneFalls (R.bads rack.old) (R.bads rack.new) (R.gones rack.old)
        (R.gones rack.new) }
    ensures reads { R.reads rack.new ≡ R.reads rack.old }
{
    for row in 0..geometry.r() {
        if write_row(rack, geometry, slot, row, redo, stripe) == Reply::Gone {
            return Reply::Gone;
        }
    }
    Reply::Done
}

// Writes the body's cells of one row to one slot, up to the first sector that is gone.
fn write_row<R: Rack>(
    rack: &mut R,
    geometry: &Geometry,
    slot: u8,
    row: u8,
    redo: &Redo,
    stripe: &Stripe,
) -> Reply
    requires slot_in { slot < 32 }
    requires row_in { row < geometry.now.r }
    requires redo { IsRedo geometry.now redo.now }
    requires stripe { IsStripeOf geometry.now stripe.now }
    ensures does { IsTrue R.is_honest →
        Writing (body_writes geometry.now redo.now stripe.now) (IsSlot slot)
        (IsGoneSlot slot result) (IsInRow geometry.now slot row) (R.history rack.old)
        (R.history rack.new) }
    ensures told_gone { IsTrue R.is_honest → (j : ℕ) (call : SlotCall) →
        WasAnswered j call (R.history rack.old) (R.history rack.new) → AnswersGone call →
        IsGoneSlot slot result j }
    ensures gone { result ≡ Reply.Gone → Rose (R.gones rack.old slot) (R.gones rack.new slot) }
    ensures counts { NoneFalls (R.bads rack.old) (R.bads rack.new) (R.gones rack.old)
        (R.gones rack.new) }
    ensures reads { R.reads rack.new ≡ R.reads rack.old }
{
    for chunk in 0..geometry.n() {
        if redo.cells.has(row, chunk)
            && rack.write(
                slot,
                geometry.body_sector(row, chunk),
                stripe.cell(row, chunk),
            ) == Reply::Gone
        {
            return Reply::Gone;
        }
    }
    Reply::Done
}

/// Writes a gate that is open with this redo to every live slot, syncs them, and answers those that were gone.
///
/// On a slot that isn't answered the gate is safe from a crash. On one that is, it may be left as it was, open or torn.
pub fn open_gates<R: Rack>(rack: &mut R, live: Slots, geometry: &Geometry, redo: &Redo) -> Slots
    requires { IsRedo geometry.now redo.now }
    ensures does { DoesPhase (gate_writes (opened geometry.now redo.now)) live result
        (told R.Rack rack.old) (told R.Rack rack.new) }
    ensures reads { R.reads rack.new ≡ R.reads rack.old }
{
    write_gates(rack, live, &open_gate(geometry, redo))
}

/// Writes a closed gate to every live slot, syncs them, and answers those that were gone.
///
/// On a slot that isn't answered the gate is safe from a crash. On one that is, it may be left as it was, closed or torn.
pub fn close_gates<R: Rack>(rack: &mut R, live: Slots) -> Slots
    ensures does { DoesPhase (gate_writes closed) live result (told R.Rack rack.old)
        (told R.Rack rack.new) }
    ensures reads { R.reads rack.new ≡ R.reads rack.old }
{
    write_gates(rack, live, &closed_gate())
}

fn write_gates<R: Rack>(rack: &mut R, live: Slots, gate: &[u8; SECTOR]) -> Slots
    ensures does { DoesPhase (gate_writes gate.now) live result (told R.Rack rack.old)
        (told R.Rack rack.new) }
    ensures reads { R.reads rack.new ≡ R.reads rack.old }
{
    let unwritten = write_all(rack, live, GATE_SECTOR, gate);
    sync_rest(rack, live, unwritten)
}
