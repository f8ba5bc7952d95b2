// The parts of a replacement: what is looked at before anything is written, and the new journal.
ghost use Rattle.std.specs.Prelude.{◌≡◌, ◌≤◌, ◌<◌, ◌↔◌, IfErr, IfSome, IsTrue, MatchBool, None, OnOk};
ghost use Rattle.stair_rack.specs.Answers.{IsHistory};
ghost use Rattle.stair_rack.specs.Count.{Rose};
ghost use Rattle.stair_rack.specs.Placed.{IsGoneSlot, IsSlot, Placed};
ghost use Rattle.stair_rack.specs.RackCounts.{NoneFalls, RisesAtMost};
ghost use Rattle.stair_rack.specs.Told.{told};
ghost use Rattle.stair_rack.specs.Writing.{IsOnSlot, Writing};
ghost use Rattle.stair_super.specs.Superblock.{Superblock};
ghost use Rattle.stair_invariant.specs.Effects.{snapshot};
ghost use Rattle.stair_array.specs.Arrays.{replaced_as};
ghost use Rattle.stair_array.specs.Causes.{IsFree};
ghost use Rattle.stair_array.specs.MendingSteps.{IsBodyOf};
ghost use Rattle.stair_array.specs.Mends.{PreparesSlot, new_journal};
ghost use Rattle.stair_array.specs.Promise.{Keeps};
ghost use Rattle.stair_mend.specs.MediumLook.{IsNotFree, IsOther, IsOwn, LooksAt};

use stair_array::{Array, ReplaceFault};
use stair_base::{BODY_START, GATE_SECTOR, Geometry, SECTOR, StripeCode};
use stair_journal::closed_gate;
use stair_member::probe_slot;
use stair_rack::{Rack, Reply};
use stair_super::{Mark, Super};

// The superblocks in the two places of a device, of whatever array.
#[derive(Clone, Copy, Drop)]
pub(crate) struct Places {
    first: Option<Super>,
    second: Option<Super>,
}

// Refuses a slot that may not be replaced, whatever device is in it.
pub(crate) fn is_free<C: StripeCode>(array: &Array<C>, slot: u8) -> Result<(), ReplaceFault>
    ensures free { OnOk result (IsFree array.now.member slot) }
    ensures not { IfErr result (λ fault. IsNotFree array.now.member slot fault) }
{
    let n = array.geometry().n();
    if slot >= n {
        return Err(ReplaceFault::OutOfRange {
            asked: u64::from(slot),
            limit: u64::from(n),
        });
    }
    let marks = array.marks();
    let mark = marks[usize::from(slot)];
    if mark != Mark::Down {
        return Err(ReplaceFault::SlotBusy { slot, mark });
    }
    Ok(())
}

// Makes the device in a slot that is free ready to be admitted: looks at it, lays out its journal, and has the array note what it
// holds. The array notes it last, so that a refusal leaves it as it was.
pub(crate) fn prepare_slot<R: Rack, C: StripeCode>(
    array: &mut Array<C>,
    rack: &mut R,
    slot: u8,
) -> Result<(), ReplaceFault>
    requires free { IsFree array.old.member slot }
    requires going { array.old.stopped ≡ None }
    ensures does { PreparesSlot slot (replaced_as result)
        (snapshot array.old.member (told R.Rack rack.old))
        (snapshot array.new.member (told R.Rack rack.new)) }
    ensures array { array.new.member.array ≡ array.old.member.array }
    ensures kept { Keeps (replaced_as result) array.new.stopped }
    ensures going { array.new.stopped ≡ None }
    ensures same { IfErr result (λ _. array.new ≡ array.old) }
    ensures rebuild { array.new.rebuild ≡ array.old.rebuild }
    ensures remembers { array.new.remembered ≡ array.old.remembered }
    ensures news { array.new.news ≡ array.old.news }
    ensures reads { RisesAtMost 2 (R.reads rack.old) (R.reads rack.new) }
{
    let geometry = array.geometry();
    let places = look_for(rack, &geometry, slot)?;
    if lay_out_journal(rack, &geometry, slot) == Reply::Gone {
        return Err(ReplaceFault::Gone(slot));
    }
    array.note_medium(slot, places.first, places.second);
    Ok(())
}

// Attaches the slot, measures its device, and reads both of its superblock places, each once. They are judged once both were read,
// since a device that is gone can't be told to be of another array.
fn look_for<R: Rack>(rack: &mut R, geometry: &Geometry, slot: u8) -> Result<Places, ReplaceFault>
    requires { slot < 32 }
    ensures does { LooksAt geometry.now slot (told R.Rack rack.old) (told R.Rack rack.new) result }
    ensures reads { RisesAtMost 2 (R.reads rack.old) (R.reads rack.new) }
{
    if rack.attach(slot) == Reply::Gone {
        return Err(ReplaceFault::Gone(slot));
    }
    let has = rack.sectors(slot);
    if has < geometry.need() {
        return Err(ReplaceFault::SmallDevice {
            slot,
            has,
            needs: geometry.need(),
        });
    }
    let probe = probe_slot(rack, slot);
    if probe.is_gone() {
        return Err(ReplaceFault::Gone(slot));
    }
    let first = probe.first.block();
    let second = probe.second.block();
    if is_other(&first, geometry) || is_other(&second, geometry) {
        return Err(ReplaceFault::AlreadyArray(slot));
    }
    Ok(Places { first, second })
}

// Whether this is a superblock of another array.
fn is_other(held: &Option<Super>, geometry: &Geometry) -> bool
    ensures { MatchBool result (IsOther geometry.now held.now) (IsOwn geometry.now held.now) }
{
    match held {
        Some(block) => !block.geometry().is_same(geometry),
        None => false,
    }
}

// Writes a closed gate to the slot and zeros for the body of a redo, up to the first sector that is gone, and syncs it.
fn lay_out_journal<R: Rack>(rack: &mut R, geometry: &Geometry, slot: u8) -> Reply
    requires { slot < 32 }
    ensures does { IsTrue R.is_honest →
        Placed (new_journal geometry.now) (IsSlot slot) (IsGoneSlot slot result)
        (R.history rack.old) (R.history rack.new) }
    ensures gone { result ≡ Reply.Gone → Rose (R.gones rack.old slot) (R.gones rack.new slot) }
    ensures counts { NoneFalls (R.bads rack.old) (R.bads rack.new) (R.gones rack.old)
        (R.gones rack.new) }
    ensures reads { R.reads rack.new ≡ R.reads rack.old }
{
    if write_journal(rack, geometry, slot) == Reply::Gone {
        return Reply::Gone;
    }
    rack.sync(slot)
}

// Writes them, and syncs nothing.
fn write_journal<R: Rack>(rack: &mut R, geometry: &Geometry, slot: u8) -> Reply
    requires { slot < 32 }
    ensures does { IsTrue R.is_honest →
        Writing (new_journal geometry.now) (IsSlot slot) (IsGoneSlot slot result) (IsOnSlot slot)
        (R.history rack.old) (R.history rack.new) }
    ensures gone { result ≡ Reply.Gone → Rose (R.gones rack.old slot) (R.gones rack.new slot) }
    ensures counts { NoneFalls (R.bads rack.old) (R.bads rack.new) (R.gones rack.old)
        (R.gones rack.new) }
    ensures reads { R.reads rack.new ≡ R.reads rack.old }
{
    if rack.write(slot, GATE_SECTOR, &closed_gate()) == Reply::Gone {
        return Reply::Gone;
    }
    clear_body(rack, geometry, slot)
}

// Writes the zeros.
fn clear_body<R: Rack>(rack: &mut R, geometry: &Geometry, slot: u8) -> Reply
    requires { slot < 32 }
    ensures does { IsTrue R.is_honest →
        Writing (new_journal geometry.now) (IsSlot slot) (IsGoneSlot slot result) (IsBodyOf slot)
        (R.history rack.old) (R.history rack.new) }
    ensures gone { result ≡ Reply.Gone → Rose (R.gones rack.old slot) (R.gones rack.new slot) }
    ensures counts { NoneFalls (R.bads rack.old) (R.bads rack.new) (R.gones rack.old)
        (R.gones rack.new) }
    ensures reads { R.reads rack.new ≡ R.reads rack.old }
{
    // by whose limits there is a first cell, before which the body ends
    let _ = geometry.stripes();
    let zeros = [0; SECTOR];
    for sector in BODY_START..geometry.cell_sector(0, 0) {
        if rack.write(slot, sector, &zeros) == Reply::Gone {
            return Reply::Gone;
        }
    }
    Reply::Done
}
