ghost use Rattle.std.specs.Prelude.{◌≡◌, ◌+◌, ◌*◌, ◌/◌, ◌%◌, ◌<◌, ◌≤◌, ◌⊎◌, ◌∷◌, [], ℕ, length, IfErr, IfOk, IfSome, IsTrue, OnErr, Err, None, Some};
ghost use Rattle.stair_model.specs.CellSet.{CellSet as Cells, cell_count};
ghost use Rattle.stair_model.specs.Geometry.{block_count, data_cells};
ghost use Rattle.stair_rack.specs.RackCounts.{RisesAtMost};
ghost use Rattle.stair_rack.specs.Told.{told};
ghost use Rattle.stair_member.specs.Epochs.{of_fence};
ghost use Rattle.stair_member.specs.Membership.{IsMembership};
ghost use Rattle.stair_member.specs.Seeing.{Sees};
ghost use Rattle.stair_member.specs.declared.fault.FenceFault.{FenceFault as Fault};
ghost use Rattle.stair_state.specs.Blocks.{AreOfOneStripe};
ghost use Rattle.stair_invariant.specs.Effects.{snapshot};
ghost use Rattle.stair_invariant.specs.Session.{IsRebuiltIn};
ghost use Rattle.stair_array.specs.Arrays.{IsOfRemembered, IsUnderWay, LacksCell, LacksOne, Opens, answer_as, blocks_of, cells_of, outcome, state_of};
ghost use Rattle.stair_array.specs.Calls.{AreOfBlocks, Reads, WritesBlocks};
ghost use Rattle.stair_array.specs.Causes.{IsFree, IsNextChunk};
ghost use Rattle.stair_array.specs.Faults.{array_fault};
ghost use Rattle.stair_array.specs.Machine.{ReadBlock, RebuildNext, Recover, ReplaceSlot, ScrubStripe, SetFrozen, SetLabel, WriteBlocks, write_block};
ghost use Rattle.stair_array.specs.MendingCalls.{AdmitsSlot, admitted_as, chunk_as, promotion_as, rebuild_past};
ghost use Rattle.stair_array.specs.MendingSteps.{WritesNext};
ghost use Rattle.stair_array.specs.Mends.{Promotes, Scrubs, StampsAs};
ghost use Rattle.stair_array.specs.News.{AddsFallen, AddsNews, StayDown, no_news};
ghost use Rattle.stair_array.specs.Promise.{Keeps, rebuild_after};

use crate::fault::{ArrayFault, RecoverFault};
use crate::news::News;
use crate::rebuilding::{Rebuild, left_of, left_past};
use crate::session::ArrayCore;
use stair_base::{Geometry, SECTOR, StripeCode};
use stair_member::{AdmitFault, FenceFault, Member};
use stair_rack::Rack;
use stair_super::{Label, Mark, Super};
use std::alloc::Global;
use std::marker::Model;

/// An array that was opened.
///
/// Every call that takes a rack is to be handed the one over which it was opened. A call that is refused an epoch, `TooFew` or
/// `EpochsSpent`, stops the array: from then on each call that takes the rack answers the same, and does nothing.
#[derive(Drop)]
pub struct Array<C: StripeCode> {
    session: ArrayCore,
    code: C,
    rebuild: Option<Rebuild>,
    // the stripe whose cells the session's buffer has, where a read restored it and no other step came since
    remembered: Option<u32>,
    news: News,
}

impl<C: StripeCode> Model for Array<C> {
    ghost use Rattle.std.specs.Prelude.{◌≡◌};
    ghost use Rattle.stair_array.specs.Arrays.{IsUnderWay, OpenArray, remembered_as};

    ghost Value = { OpenArray };

    ghost view = { λ a. record {
      member = a.session.member;
      rebuild = a.rebuild;
      stopped = a.session.stopped;
      remembered = remembered_as a.remembered a.session.stripe;
      news = a.news;
    } };

    ghost invariant = { λ a. (C.shape a.code ≡ a.session.member.array.geometry)
        × IsUnderWay a.session.member a.rebuild };
}

impl<C: StripeCode> Array<C> {
    /// Opens the array that a survey found on this rack, with no call between. The code is one of its geometry.
    ///
    /// An epoch is established first, which shuts out each slot that isn't here. Only then the gates of the live slots are
    /// read, again as long as one of them is gone. Where one is open its redo is done again: its body is read, the gates
    /// that aren't open are opened, its cells are placed. Then all gates are closed. After each of these the slots that were
    /// gone are left out, by an epoch without them.
    ///
    /// - `Memory`: there is no memory for a stripe. It is taken before the first call, and none is taken later.
    /// - `TooFew`, `EpochsSpent`: an epoch was refused, as `fence` of `stair_member` says. A redo that wasn't closed yet is done
    ///   by the next opening.
    /// - `JournalLost`: a gate was open, and no live slot gave this sector of the redo's body. No cell was placed and no gate
    ///   written.
    pub fn recover<R: Rack>(
        alloc: Global,
        rack: &mut R,
        member: Member,
        code: C,
    ) -> Result<Array<C>, RecoverFault>
        requires { C.shape code ≡ member.array.geometry }
        ensures does { Opens (snapshot member (told R.Rack rack.old)) (told R.Rack rack.new) result }
        ensures memory { IfErr result (λ fault. fault ≡ RecoverFault.Memory →
            rack.new ≡ rack.old) }
        ensures goes { IfOk result (λ array. array.stopped ≡ None) }
        ensures rebuilds { IfOk result (λ array. array.rebuild ≡ None) }
        ensures remembers { IfOk result (λ array. array.remembered ≡ None) }
        ensures news { IfOk result (λ array. AddsNews Recover (Ok member.array.geometry)
            member.array array.member.array no_news array.news) }
    {
        let before = member;
        let Ok(mut session) = ArrayCore::new(alloc, member) else {
            return Err(RecoverFault::Memory);
        };
        session.recover(rack)?;
        let mut news = News::none();
        news.add_fallen(&before, &session.member);
        Ok(Array {
            session,
            code,
            rebuild: None,
            remembered: None,
            news,
        })
    }

    /// Reads a block into `into`, which is left as it was where the block is refused.
    ///
    /// Its own cell is read where its slot is live. Where that can't be had its stripe is gathered, the slots that were gone
    /// are left out, and it is restored. The array remembers the stripe that a read restored last. A later read of one of its
    /// blocks copies the cell from there and makes no call, even if the cells were damaged since. Any step but a read forgets
    /// this stripe, and so does a read that is refused after it couldn't have its own cell.
    ///
    /// - `OutOfRange`: the array has no such block. No call is made.
    /// - `Lost`: the cells of its stripe that couldn't be had aren't covered. The array goes on.
    /// - `TooFew`, `EpochsSpent`: the epoch without the slots that were gone was refused. The array is stopped.
    pub fn read<R: Rack>(
        &mut self,
        rack: &mut R,
        block: u64,
        into: &mut [u8; SECTOR],
    ) -> Result<(), ArrayFault>
        ensures does { self.old.stopped ≡ None →
            Reads block self.old.remembered self.new.remembered (answer_as into.new result)
            (snapshot self.old.member (told R.Rack rack.old))
            (snapshot self.new.member (told R.Rack rack.new)) }
        ensures kept { self.old.stopped ≡ None → Keeps (answer_as into.new result) self.new.stopped }
        ensures stopped { (fault : Fault) → self.old.stopped ≡ Some fault →
            (result ≡ Err (array_fault fault)) × (rack.new ≡ rack.old) × (self.new ≡ self.old) }
        ensures past { block_count self.old.member.array.geometry ≤ block → rack.new ≡ rack.old }
        ensures into { OnErr result (into.new ≡ into.old) }
        ensures rebuild { self.new.rebuild ≡ rebuild_after self.new.member self.old.rebuild }
        ensures news { AddsNews (ReadBlock block) (answer_as into.new result) self.old.member.array
            self.new.member.array self.old.news self.new.news }
        ensures again { IsOfRemembered self.old.member.array.geometry self.old.remembered block →
            rack.new ≡ rack.old }
        ensures shared { IfOk result (λ _. RisesAtMost 1 (R.reads rack.old) (R.reads rack.new) ⊎
            IsOfRemembered self.new.member.array.geometry self.new.remembered block) }
        ensures once { RisesAtMost 1 (R.reads rack.old) (R.reads rack.new) ⊎
            LacksCell block (snapshot self.old.member (told R.Rack rack.old)) (told R.Rack rack.new) }
        ensures reads { RisesAtMost (1 + cells_of self.old.member.array.geometry)
            (R.reads rack.old) (R.reads rack.new) }
    {
        if let Some(fault) = self.session.stopped {
            return Err(ArrayFault::from(fault));
        }
        let place = self.session.place_of(block)?;
        if self.remembered == Some(place.stripe) {
            *into = *self.session.stripe.cell(place.row, place.slot);
            return Ok(());
        }
        if self.session.read_cell(rack, place, into) {
            return Ok(());
        }
        self.remembered = None;
        let before = self.session.member;
        let loaded = self.session.load(rack, &mut self.code, place.stripe);
        self.rebuild = left_of(self.rebuild, &self.session.member);
        self.news.add_fallen(&before, &self.session.member);
        loaded?;
        self.remembered = Some(place.stripe);
        *into = *self.session.stripe.cell(place.row, place.slot);
        Ok(())
    }

    /// Writes a block: [`write_blocks`](Array::write_blocks) of it alone.
    pub fn write<R: Rack>(
        &mut self,
        rack: &mut R,
        block: u64,
        from: &[u8; SECTOR],
    ) -> Result<(), ArrayFault>
        ensures does { self.old.stopped ≡ None → WritesBlocks block (from.now ∷ []) (outcome result)
            (snapshot self.old.member (told R.Rack rack.old))
            (snapshot self.new.member (told R.Rack rack.new)) }
        ensures kept { self.old.stopped ≡ None → Keeps (outcome result) self.new.stopped }
        ensures stopped { (fault : Fault) → self.old.stopped ≡ Some fault →
            (result ≡ Err (array_fault fault)) × (rack.new ≡ rack.old) × (self.new ≡ self.old) }
        ensures past { block_count self.old.member.array.geometry ≤ block → rack.new ≡ rack.old }
        ensures frozen { IsTrue self.old.member.array.frozen → rack.new ≡ rack.old }
        ensures rebuild { self.new.rebuild ≡ rebuild_after self.new.member self.old.rebuild }
        ensures remembers { self.old.stopped ≡ None → self.new.remembered ≡ None }
        ensures news { AddsNews (write_block block from.now) (outcome result) self.old.member.array
            self.new.member.array self.old.news self.new.news }
        ensures once { (cells : Cells) → AreOfBlocks self.old.member.array.geometry block 1 cells →
            RisesAtMost (cell_count cells) (R.reads rack.old) (R.reads rack.new) ⊎
            LacksOne (block / data_cells self.old.member.array.geometry) cells
            (snapshot self.old.member (told R.Rack rack.old)) (told R.Rack rack.new) }
        ensures reads { RisesAtMost (2 * cells_of self.old.member.array.geometry)
            (R.reads rack.old) (R.reads rack.new) }
    {
        // by whose rules one block is of one stripe
        let _ = self.geometry();
        self.write_blocks(rack, block, from)
    }

    /// Writes blocks of one stripe, from block `first` on, as one step: after a crash within it all of them are new, or none
    /// is. `from` is one or more whole blocks, all of one stripe: `first` modulo u, the blocks of a stripe, and their number
    /// are together at most u.
    ///
    /// Where they fill the stripe nothing is read. Otherwise the cells that change with them are read where they lie, if all
    /// lie on live slots and can be had; else the stripe is gathered and restored, as for a read. Then these cells are
    /// journalled and placed, in four phases with a sync each. Slots that were gone are left out.
    ///
    /// - `OutOfRange`: the array has no block `first`. No call is made.
    /// - `Frozen`: the array is frozen. No call is made.
    /// - `Lost`: as for a read. Nothing is changed, and the array goes on.
    /// - `TooFew`, `EpochsSpent`: an epoch without slots that were gone was refused. The array is stopped. Its next opening finds
    ///   all of the blocks new, or none.
    pub fn write_blocks<R: Rack>(
        &mut self,
        rack: &mut R,
        first: u64,
        from: &[u8],
    ) -> Result<(), ArrayFault>
        requires whole { length from.now % 512 ≡ 0 }
        requires together { AreOfOneStripe self.old.member.array.geometry first
            (length from.now / 512) }
        ensures does { self.old.stopped ≡ None → WritesBlocks first (blocks_of from.now) (outcome result)
            (snapshot self.old.member (told R.Rack rack.old))
            (snapshot self.new.member (told R.Rack rack.new)) }
        ensures kept { self.old.stopped ≡ None → Keeps (outcome result) self.new.stopped }
        ensures stopped { (fault : Fault) → self.old.stopped ≡ Some fault →
            (result ≡ Err (array_fault fault)) × (rack.new ≡ rack.old) × (self.new ≡ self.old) }
        ensures past { block_count self.old.member.array.geometry ≤ first → rack.new ≡ rack.old }
        ensures frozen { IsTrue self.old.member.array.frozen → rack.new ≡ rack.old }
        ensures rebuild { self.new.rebuild ≡ rebuild_after self.new.member self.old.rebuild }
        ensures remembers { self.old.stopped ≡ None → self.new.remembered ≡ None }
        ensures news { AddsNews (WriteBlocks first (blocks_of from.now)) (outcome result) self.old.member.array
            self.new.member.array self.old.news self.new.news }
        ensures unread { length from.now / 512 ≡ data_cells self.old.member.array.geometry →
            R.reads rack.new ≡ R.reads rack.old }
        ensures once { (cells : Cells) →
            AreOfBlocks self.old.member.array.geometry first (length from.now / 512) cells →
            RisesAtMost (cell_count cells) (R.reads rack.old) (R.reads rack.new) ⊎
            LacksOne (first / data_cells self.old.member.array.geometry) cells
            (snapshot self.old.member (told R.Rack rack.old)) (told R.Rack rack.new) }
        ensures reads { RisesAtMost (2 * cells_of self.old.member.array.geometry)
            (R.reads rack.old) (R.reads rack.new) }
    {
        if let Some(fault) = self.session.stopped {
            return Err(ArrayFault::from(fault));
        }
        self.remembered = None;
        self.session.place_of(first)?;
        if self.session.member.frozen() {
            return Err(ArrayFault::Frozen);
        }
        let (blocks, _) = from.as_chunks::<SECTOR>();
        let before = self.session.member;
        let written = self.session.write(rack, &mut self.code, first, blocks);
        self.rebuild = left_of(self.rebuild, &self.session.member);
        self.news.add_fallen(&before, &self.session.member);
        written
    }

    /// Scrubs a stripe: what can't be read of it on a live slot is restored and written anew. How many cells that is.
    ///
    /// The stripe is gathered, and the slots that were gone are left out. Where each cell on a live slot can be read nothing is
    /// written. Else the stripe is restored, and these cells are journalled and placed, as for a write of blocks. A frozen array
    /// is scrubbed too.
    ///
    /// - `OutOfRange`: the array has no such stripe. No call is made.
    /// - `Lost`: as for a read. Nothing is changed, and the array goes on.
    /// - `TooFew`, `EpochsSpent`: an epoch without slots that were gone was refused. The array is stopped.
    pub fn mend_stripe<R: Rack>(&mut self, rack: &mut R, stripe: u32) -> Result<u16, ArrayFault>
        ensures does { self.old.stopped ≡ None → Scrubs stripe (outcome result)
            (snapshot self.old.member (told R.Rack rack.old))
            (snapshot self.new.member (told R.Rack rack.new)) }
        ensures kept { self.old.stopped ≡ None → Keeps (outcome result) self.new.stopped }
        ensures stopped { (fault : Fault) → self.old.stopped ≡ Some fault →
            (result ≡ Err (array_fault fault)) × (rack.new ≡ rack.old) × (self.new ≡ self.old) }
        ensures past { self.old.member.array.geometry.stripes ≤ stripe → rack.new ≡ rack.old }
        ensures rebuild { self.new.rebuild ≡ rebuild_after self.new.member self.old.rebuild }
        ensures remembers { self.old.stopped ≡ None → self.new.remembered ≡ None }
        ensures news { AddsNews (ScrubStripe stripe) (outcome result) self.old.member.array
            self.new.member.array self.old.news self.new.news }
        ensures reads { RisesAtMost (cells_of self.old.member.array.geometry) (R.reads rack.old)
            (R.reads rack.new) }
    {
        if let Some(fault) = self.session.stopped {
            return Err(ArrayFault::from(fault));
        }
        self.remembered = None;
        let limit = self.session.member.geometry().stripes();
        if stripe >= limit {
            return Err(ArrayFault::OutOfRange {
                asked: u64::from(stripe),
                limit: u64::from(limit),
            });
        }
        let before = self.session.member;
        let scrubbed = self.session.scrub(rack, &mut self.code, stripe);
        self.rebuild = left_of(self.rebuild, &self.session.member);
        self.news.add_fallen(&before, &self.session.member);
        let cells = scrubbed?;
        self.news.repaired = Some((stripe, cells));
        Ok(cells)
    }

    /// Takes in what was read of the medium in a slot that is Down and is to be admitted: the superblocks in its two places, of
    /// whatever array and slot, `None` where there is none.
    ///
    /// The next epoch's draw will be above theirs, so that none of them hides a superblock of the admission, and the slot's next
    /// superblock goes to the place that doesn't hold the newer one.
    pub fn note_medium(&mut self, slot: u8, first: Option<Super>, second: Option<Super>)
        requires free { IsFree self.old.member slot }
        ensures is { Sees slot first second self.old.member self.new.member }
        ensures rules { IsMembership self.new.member }
        ensures rebuild { self.new.rebuild ≡ self.old.rebuild }
        ensures stopped { self.new.stopped ≡ self.old.stopped }
        ensures remembers { self.new.remembered ≡ self.old.remembered }
        ensures news { self.new.news ≡ self.old.news }
    {
        self.session.member.observe(slot, first, second);
    }

    /// Admits the device in a slot that is Down, by an epoch in which the slot is Rebuilding. What its medium holds is to be taken in
    /// first, by [`note_medium`](Array::note_medium).
    ///
    /// - `Gone`: the slot was gone. An epoch stands in which it is Down.
    /// - `TooFew`, `EpochsSpent`: the epoch was refused. The array is stopped.
    pub fn admit_slot<R: Rack>(&mut self, rack: &mut R, slot: u8) -> Result<(), AdmitFault>
        requires free { IsFree self.old.member slot }
        ensures does { self.old.stopped ≡ None → AdmitsSlot slot (admitted_as result)
            (snapshot self.old.member (told R.Rack rack.old))
            (snapshot self.new.member (told R.Rack rack.new)) }
        ensures kept { self.old.stopped ≡ None → Keeps (admitted_as result) self.new.stopped }
        ensures stopped { (fault : Fault) → self.old.stopped ≡ Some fault →
            (result ≡ Err (of_fence fault)) × (rack.new ≡ rack.old) × (self.new ≡ self.old) }
        ensures geometry { self.new.member.array.geometry ≡ self.old.member.array.geometry }
        ensures rebuild { self.new.rebuild ≡ rebuild_after self.new.member self.old.rebuild }
        ensures remembers { self.old.stopped ≡ None → self.new.remembered ≡ None }
        ensures news { AddsNews (ReplaceSlot slot) (admitted_as result) self.old.member.array
            self.new.member.array self.old.news self.new.news }
        ensures reads { R.reads rack.new ≡ R.reads rack.old }
    {
        if let Some(fault) = self.session.stopped {
            return Err(AdmitFault::from(fault));
        }
        self.remembered = None;
        let before = self.session.member;
        let admitted = self.session.admit_slot(rack, slot);
        self.rebuild = left_of(self.rebuild, &self.session.member);
        self.news.add_fallen(&before, &self.session.member);
        admitted?;
        self.news.admitted = Some(slot);
        Ok(())
    }

    /// The slot that is rebuilt, and the stripe whose chunk comes next, which is the number of stripes where the promotion alone is
    /// left. Where no rebuild is under way it is the lowest slot that is Rebuilding, with stripe 0. None where no slot is.
    pub fn next_chunk(&self) -> Option<(u8, u32)>
        ensures none { result ≡ None → (j : ℕ) → ¬ IsRebuiltIn self.now.member j }
        ensures some { IfSome result (λ next. IsNextChunk (state_of self.now) next.0 next.1) }
    {
        match self.session.next_of(self.rebuild) {
            Some(next) => Some((next.slot(), next.stripe())),
            None => None,
        }
    }

    /// Writes the slot's chunk of this stripe, which is the one that [`next_chunk`](Array::next_chunk) gives.
    ///
    /// The stripe is gathered, the slots that were gone are left out, and it is restored; then the chunk is written, without a sync
    /// and without the journal. Where the slot was gone in this it is left out too, and is Down. Otherwise its next chunk comes next,
    /// or the promotion where this was the last one.
    ///
    /// - `Lost`: as for a read. Nothing is written, the array goes on, and the same chunk comes next.
    /// - `TooFew`, `EpochsSpent`: an epoch was refused. The array is stopped.
    pub fn chunk_to<R: Rack>(
        &mut self,
        rack: &mut R,
        stripe: u32,
        slot: u8,
    ) -> Result<(), ArrayFault>
        requires next { IsNextChunk (state_of self.old) slot stripe }
        requires stripe { stripe < self.old.member.array.geometry.stripes }
        ensures does { self.old.stopped ≡ None →
            WritesNext slot stripe (chunk_as slot self.new.member result)
            (snapshot self.old.member (told R.Rack rack.old))
            (snapshot self.new.member (told R.Rack rack.new)) }
        ensures kept { self.old.stopped ≡ None → Keeps (outcome result) self.new.stopped }
        ensures stopped { (fault : Fault) → self.old.stopped ≡ Some fault →
            (result ≡ Err (array_fault fault)) × (rack.new ≡ rack.old) × (self.new ≡ self.old) }
        ensures geometry { self.new.member.array.geometry ≡ self.old.member.array.geometry }
        ensures rebuild { self.old.stopped ≡ None → self.new.rebuild ≡
            rebuild_past slot stripe self.new.member self.old.rebuild result }
        ensures remembers { self.old.stopped ≡ None → self.new.remembered ≡ None }
        ensures stays { StayDown self.old.member.array self.new.member.array }
        ensures news { AddsFallen self.old.member.array self.new.member.array self.old.news
            self.new.news }
        ensures reads { RisesAtMost (cells_of self.old.member.array.geometry) (R.reads rack.old)
            (R.reads rack.new) }
    {
        if let Some(fault) = self.session.stopped {
            return Err(ArrayFault::from(fault));
        }
        self.remembered = None;
        // by whose rules the slot is below 32, and stripes can be counted one further
        let _ = self.session.member.geometry();
        let before = self.session.member;
        let written = self.session.chunk_to(rack, &mut self.code, stripe, slot);
        let next = Rebuild::of(slot, stripe);
        self.rebuild = left_past(self.rebuild, next, &written, &self.session.member);
        self.news.add_fallen(&before, &self.session.member);
        written
    }

    /// Promotes a slot all of whose chunks were written: syncs it, and establishes an epoch in which it is Live.
    ///
    /// - `Gone`: the slot was gone. An epoch stands in which it is Down.
    /// - `TooFew`, `EpochsSpent`: an epoch was refused. The array is stopped.
    pub fn promote_slot<R: Rack>(&mut self, rack: &mut R, slot: u8) -> Result<(), AdmitFault>
        requires written { self.old.rebuild ≡
            Some (record { slot = slot; stripe = self.old.member.array.geometry.stripes }) }
        ensures does { self.old.stopped ≡ None → Promotes slot (promotion_as slot result)
            (snapshot self.old.member (told R.Rack rack.old))
            (snapshot self.new.member (told R.Rack rack.new)) }
        ensures kept { self.old.stopped ≡ None → Keeps (promotion_as slot result) self.new.stopped }
        ensures stopped { (fault : Fault) → self.old.stopped ≡ Some fault →
            (result ≡ Err (of_fence fault)) × (rack.new ≡ rack.old) × (self.new ≡ self.old) }
        ensures geometry { self.new.member.array.geometry ≡ self.old.member.array.geometry }
        ensures rebuild { self.old.stopped ≡ None → self.new.rebuild ≡ None }
        ensures remembers { self.old.stopped ≡ None → self.new.remembered ≡ None }
        ensures stays { StayDown self.old.member.array self.new.member.array }
        ensures news { AddsNews RebuildNext (promotion_as slot result) self.old.member.array
            self.new.member.array self.old.news self.new.news }
        ensures reads { R.reads rack.new ≡ R.reads rack.old }
    {
        if let Some(fault) = self.session.stopped {
            return Err(AdmitFault::from(fault));
        }
        self.remembered = None;
        // the member's rules
        let _ = self.session.member.geometry();
        let before = self.session.member;
        let promoted = self.session.promote_slot(rack, slot);
        self.rebuild = None;
        self.news.add_fallen(&before, &self.session.member);
        promoted?;
        self.news.promoted = Some(slot);
        Ok(())
    }

    /// Freezes the array, or thaws it, by an epoch: the blocks of a frozen one aren't written.
    ///
    /// - `TooFew`, `EpochsSpent`: the epoch was refused. The array is stopped, and its next opening finds the mark as it was, or as it
    ///   was to be.
    pub fn set_frozen<R: Rack>(&mut self, rack: &mut R, frozen: bool) -> Result<(), ArrayFault>
        ensures does { self.old.stopped ≡ None →
            StampsAs frozen self.old.member.array.label (outcome result)
            (snapshot self.old.member (told R.Rack rack.old))
            (snapshot self.new.member (told R.Rack rack.new)) }
        ensures kept { self.old.stopped ≡ None → Keeps (outcome result) self.new.stopped }
        ensures stopped { (fault : Fault) → self.old.stopped ≡ Some fault →
            (result ≡ Err (array_fault fault)) × (rack.new ≡ rack.old) × (self.new ≡ self.old) }
        ensures rebuild { self.new.rebuild ≡ rebuild_after self.new.member self.old.rebuild }
        ensures remembers { self.old.stopped ≡ None → self.new.remembered ≡ None }
        ensures news { AddsNews (SetFrozen frozen) (outcome result) self.old.member.array
            self.new.member.array self.old.news self.new.news }
        ensures reads { R.reads rack.new ≡ R.reads rack.old }
    {
        let label = self.session.member.label();
        self.stamp(rack, frozen, label)
    }

    /// Gives the array this label, by an epoch.
    ///
    /// - `TooFew`, `EpochsSpent`: the epoch was refused. The array is stopped, and its next opening finds the label as it was, or as it
    ///   was to be.
    pub fn set_label<R: Rack>(&mut self, rack: &mut R, label: Label) -> Result<(), ArrayFault>
        ensures does { self.old.stopped ≡ None →
            StampsAs self.old.member.array.frozen label (outcome result)
            (snapshot self.old.member (told R.Rack rack.old))
            (snapshot self.new.member (told R.Rack rack.new)) }
        ensures kept { self.old.stopped ≡ None → Keeps (outcome result) self.new.stopped }
        ensures stopped { (fault : Fault) → self.old.stopped ≡ Some fault →
            (result ≡ Err (array_fault fault)) × (rack.new ≡ rack.old) × (self.new ≡ self.old) }
        ensures rebuild { self.new.rebuild ≡ rebuild_after self.new.member self.old.rebuild }
        ensures remembers { self.old.stopped ≡ None → self.new.remembered ≡ None }
        ensures news { AddsNews (SetLabel label) (outcome result) self.old.member.array
            self.new.member.array self.old.news self.new.news }
        ensures reads { R.reads rack.new ≡ R.reads rack.old }
    {
        let frozen = self.session.member.frozen();
        self.stamp(rack, frozen, label)
    }

    // Establishes an epoch with this frozen mark and label.
    fn stamp<R: Rack>(&mut self, rack: &mut R, frozen: bool, label: Label) -> Result<(), ArrayFault>
        ensures does { self.old.stopped ≡ None → StampsAs frozen label (outcome result)
            (snapshot self.old.member (told R.Rack rack.old))
            (snapshot self.new.member (told R.Rack rack.new)) }
        ensures kept { self.old.stopped ≡ None → Keeps (outcome result) self.new.stopped }
        ensures stopped { (fault : Fault) → self.old.stopped ≡ Some fault →
            (result ≡ Err (array_fault fault)) × (rack.new ≡ rack.old) × (self.new ≡ self.old) }
        ensures rebuild { self.new.rebuild ≡ rebuild_after self.new.member self.old.rebuild }
        ensures remembers { self.old.stopped ≡ None → self.new.remembered ≡ None }
        ensures news { AddsFallen self.old.member.array self.new.member.array self.old.news
            self.new.news }
        ensures reads { R.reads rack.new ≡ R.reads rack.old }
    {
        if let Some(fault) = self.session.stopped {
            return Err(ArrayFault::from(fault));
        }
        self.remembered = None;
        let before = self.session.member;
        let stamped = self.session.stamp(rack, frozen, label);
        self.rebuild = left_of(self.rebuild, &self.session.member);
        self.news.add_fallen(&before, &self.session.member);
        stamped
    }

    /// The geometry of the array.
    pub fn geometry(&self) -> Geometry
        ensures value { result ≡ self.now.member.array.geometry }
        ensures rules { IsMembership self.now.member }
        ensures under { IsUnderWay self.now.member self.now.rebuild }
    {
        self.session.member.geometry()
    }

    /// How many blocks the array has.
    pub fn blocks(&self) -> u64
        ensures { result ≡ block_count self.now.member.array.geometry }
    {
        self.geometry().blocks()
    }

    /// The mark of each slot.
    pub fn marks(&self) -> [Mark; 32]
        ensures { result ≡ self.now.member.array.marks }
    {
        self.session.member.marks()
    }

    /// The epoch that stands.
    pub fn epoch(&self) -> u64
        ensures { result ≡ self.now.member.array.epoch }
    {
        self.session.member.epoch()
    }

    /// Whether the array is frozen.
    pub fn frozen(&self) -> bool
        ensures { result ≡ self.now.member.array.frozen }
    {
        self.session.member.frozen()
    }

    /// The label of the array.
    pub fn label(&self) -> Label
        ensures { result ≡ self.now.member.array.label }
    {
        self.session.member.label()
    }

    /// By which refusal of an epoch the array was stopped; None where it wasn't.
    pub fn stopped(&self) -> Option<FenceFault>
        ensures { result ≡ self.now.stopped }
    {
        self.session.stopped
    }

    /// What the opening and the calls since did, refused ones included; where the news were cleared, what the calls since
    /// then did.
    pub fn news(&self) -> News
        ensures { result ≡ self.now.news }
    {
        self.news
    }

    /// Forgets the stripe that a read restored last, so that the next read of one of its blocks calls the rack.
    pub fn forget(&mut self)
        ensures { self.new ≡ record self.old { remembered = None } }
    {
        self.remembered = None;
    }

    /// Clears the news, before a step whose events are to be told.
    pub fn clear_news(&mut self)
        ensures { self.new ≡ record self.old { news = no_news } }
    {
        self.news = News::none();
    }
}
