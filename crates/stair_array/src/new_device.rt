// What is written to the devices of a new array.
ghost use Rattle.std.specs.Prelude.{◌≡◌, ◌<◌, ◌↔◌, ℕ, IfErr, IsTrue, OnOk, length};
ghost use Rattle.stair_model.specs.Geometry.{IsWithinLimits};
ghost use Rattle.stair_model.specs.Slots.{HasSlot, IsSlotSet};
ghost use Rattle.stair_rack.specs.Answers.{Ran};
ghost use Rattle.stair_rack.specs.Placed.{IsSlot};
ghost use Rattle.stair_rack.specs.RackCounts.{NoneFalls};
ghost use Rattle.stair_array.specs.Created.{first_configuration as first};
ghost use Rattle.stair_rack.specs.Told.{told};
ghost use Rattle.stair_array.specs.Making.{
  AreMade,
  IsBehind,
  IsMaking,
  IsOneGone,
  IsPlace,
  IsSlotOf,
  IsStoppedAt,
  IsStoppedBy,
  PlacesInTurn,
};

use crate::fault::CreateFault;
use stair_base::{BODY_START, FIRST_PLACE, GATE_SECTOR, Geometry, SECOND_PLACE, SECTOR, Slots};
use stair_journal::closed_gate;
use stair_rack::{Rack, Reply, sync_all, write_all, write_through};
use stair_super::{Configuration, Label, Mark, Super, write_super};

// Writes a closed gate to the devices of the array and zeros after it, and syncs them. Their superblock places stay as they
// are. It goes sector by sector, since a rack may keep what it makes of the bytes of a sector for the next device, and ends
// after the first write or sync to which a slot was gone.
pub(crate) fn lay_out<R: Rack>(rack: &mut R, geometry: &Geometry) -> Result<(), CreateFault>
    ensures made { IsTrue R.is_honest → OnOk result ((j : ℕ) → j < geometry.now.n →
        AreMade geometry.now (IsBehind geometry.now) j (R.history rack.old)
        (R.history rack.new)) }
    ensures gone { IfErr result (λ fault. IsStoppedBy geometry.now fault (told R.Rack rack.old)
        (told R.Rack rack.new)) }
    ensures ran { IsTrue R.is_honest →
        Ran (IsMaking geometry.now (IsSlotOf geometry.now) (IsBehind geometry.now))
        (R.history rack.old) (R.history rack.new) }
    ensures counts { NoneFalls (R.bads rack.old) (R.bads rack.new) (R.gones rack.old)
        (R.gones rack.new) }
    ensures limits { IsWithinLimits geometry.now }
{
    let slots = slots_of(geometry);
    none_gone(&write_all(rack, slots, GATE_SECTOR, &closed_gate()))?;
    let zeros = [0; SECTOR];
    for sector in BODY_START..geometry.need() {
        none_gone(&write_all(rack, slots, sector, &zeros))?;
    }
    none_gone(&sync_all(rack, slots))
}

// The slots of the array.
fn slots_of(geometry: &Geometry) -> Slots
    ensures are { (j : ℕ) → HasSlot result j ↔ (j < geometry.now.n) }
    ensures formed { IsSlotSet result }
    ensures limits { IsWithinLimits geometry.now }
{
    let mut slots = Slots::empty();
    for slot in 0..geometry.n() {
        slots.add(slot);
    }
    slots
}

// Refuses the lowest of the slots that were gone.
fn none_gone(gone: &Slots) -> Result<(), CreateFault>
    ensures one { IfErr result (λ fault. IsOneGone gone.now fault) }
    ensures none { OnOk result ((j : ℕ) → ¬ HasSlot gone.now j) }
{
    for slot in 0..32 {
        if gone.has(slot) {
            return Err(CreateFault::Gone(slot));
        }
    }
    Ok(())
}

// Gives each device of the array its superblock, in rising order, up to the first that is gone.
pub(crate) fn enrol_all<R: Rack>(rack: &mut R, geometry: &Geometry) -> Result<(), CreateFault>
    ensures made { IsTrue R.is_honest → OnOk result ((j : ℕ) → j < geometry.now.n →
        AreMade geometry.now IsPlace j (R.history rack.old) (R.history rack.new)) }
    ensures gone { IfErr result (λ fault. IsStoppedBy geometry.now fault (told R.Rack rack.old)
        (told R.Rack rack.new)) }
    ensures ran { IsTrue R.is_honest →
        Ran (IsMaking geometry.now (IsSlotOf geometry.now) IsPlace) (R.history rack.old)
        (R.history rack.new) }
    ensures in_turn { IsTrue R.is_honest →
        PlacesInTurn geometry.now (R.history rack.old) (R.history rack.new) }
    ensures counts { NoneFalls (R.bads rack.old) (R.bads rack.new) (R.gones rack.old)
        (R.gones rack.new) }
    ensures id { length geometry.now.id ≡ 16 }
{
    let array = first_configuration(geometry);
    for slot in 0..geometry.n() {
        if enrol(rack, &array, slot) == Reply::Gone {
            return Err(CreateFault::Gone(slot));
        }
    }
    Ok(())
}

// Writes the superblock to one place and, once that is safe from a crash, to the other one.
fn enrol<R: Rack>(rack: &mut R, array: &Configuration, slot: u8) -> Reply
    requires first { array.now ≡ first array.now.geometry }
    requires slot_in { slot < array.now.geometry.n }
    requires limits { IsWithinLimits array.now.geometry }
    ensures made { IsTrue R.is_honest → result ≡ Reply.Done →
        AreMade array.now.geometry IsPlace slot (R.history rack.old) (R.history rack.new) }
    ensures gone { result ≡ Reply.Gone → IsStoppedAt array.now.geometry slot (told R.Rack rack.old)
        (told R.Rack rack.new) }
    ensures ran { IsTrue R.is_honest →
        Ran (IsMaking array.now.geometry (IsSlot slot) IsPlace) (R.history rack.old)
        (R.history rack.new) }
    ensures in_turn { IsTrue R.is_honest →
        PlacesInTurn array.now.geometry (R.history rack.old) (R.history rack.new) }
    ensures counts { NoneFalls (R.bads rack.old) (R.bads rack.new) (R.gones rack.old)
        (R.gones rack.new) }
    ensures id { length array.now.geometry.id ≡ 16 }
{
    let block = write_super(&Super::new(*array, slot, 1, 1));
    if write_through(rack, slot, FIRST_PLACE, &block) == Reply::Gone {
        return Reply::Gone;
    }
    write_through(rack, slot, SECOND_PLACE, &block)
}

// What epoch 1 names.
fn first_configuration(geometry: &Geometry) -> Configuration
    ensures value { result ≡ first geometry.now }
    ensures limits { IsWithinLimits geometry.now }
{
    let mut marks = [Mark::Down; 32];
    let mut joins = [0; 32];
    for slot in 0..usize::from(geometry.n()) {
        marks[slot] = Mark::Live;
        joins[slot] = 1;
    }
    Configuration {
        geometry: *geometry,
        epoch: 1,
        marks,
        joins,
        frozen: false,
        label: Label::empty(),
    }
}
