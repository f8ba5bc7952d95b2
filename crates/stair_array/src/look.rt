// What `create` looks at before it writes anything.
ghost use Rattle.std.specs.Prelude.{◌≡◌, ◌<◌, ℕ, IfErr, IsTrue, OnOk};
ghost use Rattle.stair_rack.specs.Answers.{IsHistory, Ran};
ghost use Rattle.stair_rack.specs.RackCounts.{NoneFalls};
ghost use Rattle.stair_array.specs.Look.{
  IsFoundAs,
  IsLook,
  IsLookAt,
  IsReadOf,
  IsRefusedAt,
  IsSearched,
  IsTaken,
};
ghost use Rattle.stair_rack.specs.Told.{told};
ghost use Rattle.stair_array.specs.Looking.{AllPassed, IsRefused, IsSettled, Passed};

use crate::fault::CreateFault;
use stair_base::Geometry;
use stair_member::probe_slot;
use stair_rack::{Rack, Reply};

// What was found of a slot.
enum Found {
    // it was gone at one of the calls
    Gone,
    // its medium has too few sectors: so many
    Small(u32),
    // no superblock place of its medium holds a superblock
    Bare,
    // one does
    Super,
}

// Looks at all slots in rising order, up to the first that is refused.
pub(crate) fn look_at_all<R: Rack>(rack: &mut R, geometry: &Geometry) -> Result<(), CreateFault>
    ensures began { IsTrue R.is_honest → IsHistory (R.history rack.old) }
    ensures refused { IfErr result (λ fault. IsRefused geometry.now fault (told R.Rack rack.old)
        (told R.Rack rack.new)) }
    ensures passed { OnOk result (AllPassed geometry.now (told R.Rack rack.old)
        (told R.Rack rack.new)) }
    ensures taken { IsTrue R.is_honest → OnOk result ((j : ℕ) → j < 32 → j < geometry.now.n →
        IsTaken geometry.now j (R.history rack.old) (R.history rack.new)) }
    ensures ran { IsTrue R.is_honest →
        Ran IsLook (R.history rack.old) (R.history rack.new) }
    ensures counts { NoneFalls (R.bads rack.old) (R.bads rack.new) (R.gones rack.old)
        (R.gones rack.new) }
{
    for slot in 0..32u8 {
        look_at(rack, geometry, slot)?;
    }
    Ok(())
}

// Looks at one slot, and refuses it by the rule.
fn look_at<R: Rack>(rack: &mut R, geometry: &Geometry, slot: u8) -> Result<(), CreateFault>
    requires { slot < 32 }
    ensures began { IsTrue R.is_honest → IsHistory (R.history rack.old) }
    ensures refused { IfErr result (λ fault. IsRefusedAt geometry.now fault slot
        (told R.Rack rack.old) (told R.Rack rack.new)) }
    ensures passed { OnOk result (Passed geometry.now slot (told R.Rack rack.old)
        (told R.Rack rack.new)) }
    ensures taken { IsTrue R.is_honest → OnOk result (slot < geometry.now.n →
        IsTaken geometry.now slot (R.history rack.old) (R.history rack.new)) }
    ensures ran { IsTrue R.is_honest →
        Ran (IsLookAt slot) (R.history rack.old) (R.history rack.new) }
    ensures counts { NoneFalls (R.bads rack.old) (R.bads rack.new) (R.gones rack.old)
        (R.gones rack.new) }
{
    match find(rack, geometry, slot) {
        Found::Gone if slot < geometry.n() => Err(CreateFault::Gone(slot)),
        Found::Gone => Ok(()),
        Found::Small(has) => Err(CreateFault::SmallDevice {
            slot,
            has,
            needs: geometry.need(),
        }),
        Found::Bare => Ok(()),
        Found::Super => Err(CreateFault::AlreadyArray(slot)),
    }
}

// A slot of the array is synced and measured too, since it is to be written.
fn find<R: Rack>(rack: &mut R, geometry: &Geometry, slot: u8) -> Found
    requires { slot < 32 }
    ensures began { IsTrue R.is_honest → IsHistory (R.history rack.old) }
    ensures does { IsFoundAs geometry.now slot (told R.Rack rack.old) (told R.Rack rack.new)
        result }
    ensures taken { IsTrue R.is_honest → result ≡ Found.Bare → slot < geometry.now.n →
        IsTaken geometry.now slot (R.history rack.old) (R.history rack.new) }
    ensures settled { result ≡ Found.Bare →
        IsSettled geometry.now slot (told R.Rack rack.old) (told R.Rack rack.new) }
    ensures ran { IsTrue R.is_honest →
        Ran (IsLookAt slot) (R.history rack.old) (R.history rack.new) }
    ensures counts { NoneFalls (R.bads rack.old) (R.bads rack.new) (R.gones rack.old)
        (R.gones rack.new) }
{
    if rack.attach(slot) == Reply::Gone {
        return Found::Gone;
    }
    if slot >= geometry.n() {
        return find_super(rack, slot);
    }
    if rack.sync(slot) == Reply::Gone {
        return Found::Gone;
    }
    let has = rack.sectors(slot);
    if has < geometry.need() {
        return Found::Small(has);
    }
    find_super(rack, slot)
}

// Looks for a superblock in the two superblock places of a slot that was attached.
fn find_super<R: Rack>(rack: &mut R, slot: u8) -> Found
    requires { slot < 32 }
    ensures does { IsSearched slot (told R.Rack rack.old) (told R.Rack rack.new) result }
    ensures ran { IsTrue R.is_honest →
        Ran (IsReadOf slot) (R.history rack.old) (R.history rack.new) }
    ensures counts { NoneFalls (R.bads rack.old) (R.bads rack.new) (R.gones rack.old)
        (R.gones rack.new) }
{
    let probe = probe_slot(rack, slot);
    if probe.is_gone() {
        Found::Gone
    } else if probe.is_bare() {
        Found::Bare
    } else {
        Found::Super
    }
}
