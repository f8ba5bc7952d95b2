// How a session rebuilds a slot, chunk by chunk, and promotes it.
ghost use Rattle.std.specs.Prelude.{◌≡◌, ◌+◌, ◌^◌, ◌<◌, ◌≤◌, ◌↔◌, ℕ, Err, IfErr, IfOk, IfSome, None, Ok, OnOk, Some};
ghost use Rattle.stair_model.specs.CellSet.{IsCellSet};
ghost use Rattle.stair_rack.specs.RackCounts.{RisesAtMost};
ghost use Rattle.stair_rack.specs.Told.{told};
ghost use Rattle.stair_member.specs.Establishing.{refusal_of};
ghost use Rattle.stair_invariant.specs.Chunks.{AreOfChunk};
ghost use Rattle.stair_invariant.specs.Effects.{snapshot};
ghost use Rattle.stair_invariant.specs.Session.{IsRebuiltIn};
ghost use Rattle.stair_array.specs.Arrays.{cells_of, outcome};
ghost use Rattle.stair_array.specs.Causes.{IsLowestRebuilt, IsNextChunk};
ghost use Rattle.stair_array.specs.MendingCalls.{chunk_as, promotion_as, rebuild_past};
ghost use Rattle.stair_array.specs.MendingSteps.{WritesNext};
ghost use Rattle.stair_array.specs.Mends.{FencesSlot, Promotes};
ghost use Rattle.stair_array.specs.Promise.{Keeps, rebuild_after, running};

use crate::fault::ArrayFault;
use crate::session::ArrayCore;
use stair_base::{CellSet, Geometry, Slots, StripeCode};
use stair_journal::Redo;
use stair_member::{AdmitFault, FenceFault, Member, Why, promote};
use stair_rack::{Rack, Reply};
use stair_stripes::write_chunk;
use std::marker::Model;

// A rebuild: which slot, and the stripe whose chunk comes next. After the last stripe comes the promotion.
#[derive(Clone, Copy, Drop)]
pub(crate) struct Rebuild {
    slot: u8,
    stripe: u32,
}

impl Model for Rebuild {
    ghost use Rattle.std.specs.Prelude.{◌<◌};
    ghost use Rattle.stair_invariant.specs.Rebuilding.{Rebuild as UnderWay};

    ghost Value = { UnderWay };

    ghost view = { λ r. record { slot = r.slot; stripe = r.stripe } };

    ghost invariant = { λ r. r.slot < 32 };

    ghost inverse = { λ r. record { slot = r.slot; stripe = r.stripe } };
}

impl Rebuild {
    pub(crate) fn of(slot: u8, stripe: u32) -> Rebuild
        requires { slot < 32 }
        ensures { result ≡ record { slot = slot; stripe = stripe } }
    {
        Rebuild { slot, stripe }
    }

    pub(crate) fn slot(&self) -> u8
        ensures value { result ≡ self.now.slot }
        ensures below { self.now.slot < 32 }
    {
        self.slot
    }

    pub(crate) fn stripe(&self) -> u32
        ensures { result ≡ self.now.stripe }
    {
        self.stripe
    }

    // After this chunk.
    fn behind(&self) -> Rebuild
        requires { self.now.stripe + 1 < 2 ^ 32 }
        ensures { result ≡ record { slot = self.now.slot; stripe = self.now.stripe + 1 } }
    {
        Rebuild {
            slot: self.slot,
            stripe: self.stripe + 1,
        }
    }
}

// What is left of a rebuild once slots may have fallen: it ends where its slot isn't rebuilt any more.
pub(crate) fn left_of(rebuild: Option<Rebuild>, member: &Member) -> Option<Rebuild>
    ensures { result ≡ rebuild_after member.now rebuild }
{
    match rebuild {
        Some(rebuild) => {
            if member.why(rebuild.slot()) == Why::Rebuilding {
                Some(rebuild)
            } else {
                None
            }
        }
        None => None,
    }
}

// What is left of it by this chunk: it goes on to the next one where its slot is still rebuilt.
pub(crate) fn left_past(
    rebuild: Option<Rebuild>,
    next: Rebuild,
    written: &Result<(), ArrayFault>,
    member: &Member,
) -> Option<Rebuild>
    requires { next.stripe + 1 < 2 ^ 32 }
    ensures { result ≡ rebuild_past next.slot next.stripe member.now rebuild written.now }
{
    match written {
        Ok(()) => left_of(Some(next.behind()), member),
        Err(ArrayFault::Lost { .. }) => left_of(rebuild, member),
        Err(_) => None,
    }
}

impl ArrayCore {
    // The next chunk of a rebuild: of the one that is under way, else of the lowest slot that is rebuilt, from its first stripe on.
    pub(crate) fn next_of(&self, rebuild: Option<Rebuild>) -> Option<Rebuild>
        ensures none { result ≡ None → (rebuild ≡ None)
            × ((j : ℕ) → ¬ IsRebuiltIn self.now.member j) }
        ensures some { IfSome result (λ next.
            IsNextChunk (running self.now.member rebuild None) next.slot next.stripe) }
    {
        if rebuild.is_some() {
            return rebuild;
        }
        let slot = self.lowest_rebuilt()?;
        Some(Rebuild { slot, stripe: 0 })
    }

    // The lowest slot that is rebuilt.
    fn lowest_rebuilt(&self) -> Option<u8>
        ensures none { result ≡ None → (j : ℕ) → ¬ IsRebuiltIn self.now.member j }
        ensures some { IfSome result (λ slot. IsLowestRebuilt self.now.member slot × (slot < 32)) }
    {
        for slot in 0..self.member.geometry().n() {
            if self.member.why(slot) == Why::Rebuilding {
                return Some(slot);
            }
        }
        None
    }

    // Loads the stripe, and writes the slot's chunk of it, without a sync. A slot that was gone in this is left out.
    pub(crate) fn chunk_to<R: Rack, C: StripeCode>(
        &mut self,
        rack: &mut R,
        code: &mut C,
        stripe: u32,
        slot: u8,
    ) -> Result<(), ArrayFault>
        requires fits { C.shape code.old ≡ self.old.member.array.geometry }
        requires rebuilt { IsRebuiltIn self.old.member slot }
        requires stripe { stripe < self.old.member.array.geometry.stripes }
        ensures does { WritesNext slot stripe (chunk_as slot self.new.member result)
            (snapshot self.old.member (told R.Rack rack.old))
            (snapshot self.new.member (told R.Rack rack.new)) }
        ensures fits { C.shape code.new ≡ self.new.member.array.geometry }
        ensures geometry { self.new.member.array.geometry ≡ self.old.member.array.geometry }
        ensures kept { self.old.stopped ≡ None → Keeps (outcome result) self.new.stopped }
        ensures reads { RisesAtMost (cells_of self.old.member.array.geometry) (R.reads rack.old)
            (R.reads rack.new) }
    {
        // by whose rules the slot is below 32
        let _ = self.member.geometry().n();
        self.load(rack, code, stripe)?;
        if self.member.why(slot) != Why::Rebuilding {
            return Ok(());
        }
        let geometry = self.member.geometry();
        let redo = Redo {
            stripe,
            cells: chunk_of(&geometry, slot),
        };
        if write_chunk(rack, &geometry, slot, &redo, &self.stripe) == Reply::Gone {
            self.fence_slot(rack, slot)?;
        }
        Ok(())
    }

    // Promotes a slot all of whose chunks were written, once they are on the disk. Where it was gone it is left out.
    pub(crate) fn promote_slot<R: Rack>(&mut self, rack: &mut R, slot: u8) -> Result<(), AdmitFault>
        requires rebuilt { IsRebuiltIn self.old.member slot }
        ensures does { Promotes slot (promotion_as slot result)
            (snapshot self.old.member (told R.Rack rack.old))
            (snapshot self.new.member (told R.Rack rack.new)) }
        ensures geometry { self.new.member.array.geometry ≡ self.old.member.array.geometry }
        ensures kept { self.old.stopped ≡ None → Keeps (promotion_as slot result) self.new.stopped }
        ensures reads { R.reads rack.new ≡ R.reads rack.old }
    {
        // by whose rules the slot is below 32
        let _ = self.member.geometry().n();
        if rack.sync(slot) == Reply::Gone {
            self.fence_slot(rack, slot)?;
            return Err(AdmitFault::Gone(slot));
        }
        let joined = promote(rack, &mut self.member, slot);
        self.stop_if_refused(&joined);
        joined?;
        Ok(())
    }

    // Leaves out a slot that was gone.
    fn fence_slot<R: Rack>(&mut self, rack: &mut R, slot: u8) -> Result<(), FenceFault>
        requires { slot < self.old.member.array.geometry.n }
        ensures does { FencesSlot slot (refusal_of result)
            (snapshot self.old.member (told R.Rack rack.old))
            (snapshot self.new.member (told R.Rack rack.new)) }
        ensures geometry { self.new.member.array.geometry ≡ self.old.member.array.geometry }
        ensures goes_on { OnOk result (self.new.stopped ≡ self.old.stopped) }
        ensures stops { IfErr result (λ fault. self.new.stopped ≡ Some fault) }
        ensures reads { R.reads rack.new ≡ R.reads rack.old }
    {
        // by whose rules the slot is below 32
        let _ = self.member.geometry().n();
        let mut gone = Slots::empty();
        gone.add(slot);
        self.fence_if_any(rack, gone)
    }
}

// The cells of a slot's chunk.
fn chunk_of(geometry: &Geometry, slot: u8) -> CellSet
    requires { slot < geometry.now.n }
    ensures are { AreOfChunk geometry.now slot result }
    ensures formed { IsCellSet result }
{
    let mut cells = CellSet::empty();
    for row in 0..geometry.r() {
        cells.add(row, slot);
    }
    cells
}
