// How a session scrubs a stripe, and changes the frozen mark and the label.
ghost use Rattle.std.specs.Prelude.{◌≡◌, ◌<◌, ◌↔◌, ◌⊎◌, ℕ, None};
ghost use Rattle.stair_model.specs.CellSet.{HasCell, IsCellSet};
ghost use Rattle.stair_model.specs.Slots.{HasSlot};
ghost use Rattle.stair_rack.specs.RackCounts.{RisesAtMost};
ghost use Rattle.stair_rack.specs.Told.{told};
ghost use Rattle.stair_stripes.specs.Gathering.{IsCellOf};
ghost use Rattle.stair_invariant.specs.Effects.{snapshot};
ghost use Rattle.stair_array.specs.Arrays.{cells_of, outcome};
ghost use Rattle.stair_array.specs.Mends.{Scrubs, StampsAs};
ghost use Rattle.stair_array.specs.Promise.{Keeps};

use crate::fault::ArrayFault;
use crate::session::ArrayCore;
use stair_base::{CellSet, Geometry, Slots, StripeCode};
use stair_journal::Redo;
use stair_member::stamp;
use stair_rack::Rack;
use stair_stripes::gather;
use stair_super::Label;

impl ArrayCore {
    // Gathers a stripe, leaves out the slots that were gone, and writes what couldn't be read of it on the slots that are live
    // then anew, by a redo. How many cells that is.
    pub(crate) fn scrub<R: Rack, C: StripeCode>(
        &mut self,
        rack: &mut R,
        code: &mut C,
        stripe: u32,
    ) -> Result<u16, ArrayFault>
        requires fits { C.shape code.old ≡ self.old.member.array.geometry }
        requires stripe { stripe < self.old.member.array.geometry.stripes }
        ensures does { Scrubs stripe (outcome result)
            (snapshot self.old.member (told R.Rack rack.old))
            (snapshot self.new.member (told R.Rack rack.new)) }
        ensures fits { C.shape code.new ≡ self.new.member.array.geometry }
        ensures geometry { self.new.member.array.geometry ≡ self.old.member.array.geometry }
        ensures kept { self.old.stopped ≡ None → Keeps (outcome result) self.new.stopped }
        ensures reads { RisesAtMost (cells_of self.old.member.array.geometry) (R.reads rack.old)
            (R.reads rack.new) }
    {
        let geometry = self.member.geometry();
        let live = self.live();
        let gathered = gather(rack, &geometry, live, stripe, &mut self.stripe);
        self.fence_if_any(rack, gathered.gone)?;
        let still_live = self.live();
        let cells = cells_on(&geometry, &gathered.erased, &still_live);
        let count = cells.count();
        if count == 0 {
            return Ok(0);
        }
        match code.restore(&mut self.stripe, &gathered.erased) {
            Ok(()) => {
                self.redo(rack, &Redo { stripe, cells })?;
                Ok(count)
            }
            Err(_) => Err(ArrayFault::Lost {
                stripe,
                counts: gathered.erased.counts(),
            }),
        }
    }

    // Establishes an epoch with this frozen mark and label. The session stops where it is refused.
    pub(crate) fn stamp<R: Rack>(
        &mut self,
        rack: &mut R,
        frozen: bool,
        label: Label,
    ) -> Result<(), ArrayFault>
        ensures does { StampsAs frozen label (outcome result)
            (snapshot self.old.member (told R.Rack rack.old))
            (snapshot self.new.member (told R.Rack rack.new)) }
        ensures geometry { self.new.member.array.geometry ≡ self.old.member.array.geometry }
        ensures kept { self.old.stopped ≡ None → Keeps (outcome result) self.new.stopped }
        ensures reads { R.reads rack.new ≡ R.reads rack.old }
    {
        match stamp(rack, &mut self.member, frozen, label) {
            Ok(_) => Ok(()),
            Err(fault) => {
                self.stopped = Some(fault);
                Err(ArrayFault::from(fault))
            }
        }
    }
}

// Of these cells of a stripe those that lie on one of the slots.
fn cells_on(geometry: &Geometry, cells: &CellSet, slots: &Slots) -> CellSet
    requires { (i j : ℕ) → HasCell cells.now i j → IsCellOf geometry.now i j }
    ensures members { (i j : ℕ) → HasCell result i j ↔ (HasCell cells.now i j × HasSlot slots.now j) }
    ensures formed { IsCellSet result }
{
    let mut on = CellSet::empty();
    for slot in 0..geometry.n() {
        if slots.has(slot) {
            add_chunk(&mut on, geometry, cells, slot);
        }
    }
    on
}

// Adds those of the cells that lie on this slot.
fn add_chunk(on: &mut CellSet, geometry: &Geometry, cells: &CellSet, slot: u8)
    requires slot { slot < geometry.now.n }
    requires inside { (i j : ℕ) → HasCell cells.now i j → IsCellOf geometry.now i j }
    requires formed { IsCellSet on.old }
    ensures members { (i j : ℕ) → HasCell on.new i j ↔
        (HasCell on.old i j ⊎ (HasCell cells.now i j × (j ≡ slot))) }
    ensures formed { IsCellSet on.new }
{
    for row in 0..geometry.r() {
        if cells.has(row, slot) {
            on.add(row, slot);
        }
    }
}
