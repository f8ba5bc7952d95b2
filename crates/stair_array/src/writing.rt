// How a session writes blocks of a stripe.
ghost use Rattle.std.specs.Prelude.{false, All, ◌≡◌, ◌+◌, ◌*◌, ◌/◌, ◌<◌, ◌≤◌, ◌⊎◌, ◌↔◌, ℕ, None, length};
ghost use Rattle.stair_model.specs.CellSet.{CellSet as Cells, HasCell, IsCellSet, cell_count};
ghost use Rattle.stair_model.specs.Geometry.{IsWithinLimits, block_count, data_cells};
ghost use Rattle.stair_model.specs.Slots.{HasSlot};
ghost use Rattle.stair_model.specs.Stripe.{IsSector, IsStripeOf, Stripe as Numbers};
ghost use Rattle.stair_rack.specs.RackCounts.{RisesAtMost};
ghost use Rattle.stair_rack.specs.RackState.{IsLater};
ghost use Rattle.stair_rack.specs.Told.{told};
ghost use Rattle.stair_journal.specs.Redo.{IsRedo};
ghost use Rattle.stair_state.specs.Blocks.{AreOfOneStripe};
ghost use Rattle.stair_invariant.specs.Effects.{snapshot};
ghost use Rattle.stair_array.specs.Arrays.{LacksOne, cells_of, outcome};
ghost use Rattle.stair_array.specs.Calls.{AreOfBlocks, AreSet, ChangesWith, Prepares, WritesBlocks};
ghost use Rattle.stair_array.specs.Promise.{Keeps};
ghost use Rattle.stair_array.specs.WritingSteps.{Readies};

use crate::fault::ArrayFault;
use crate::session::ArrayCore;
use stair_base::{CellSet, Geometry, SECTOR, Slots, Stripe, StripeCode};
use stair_gf::Steps;
use stair_journal::Redo;
use stair_rack::Rack;
use stair_stripes::gather_cells;
use std::marker::Brand;
use std::sync::ledger::{Blank, Ledger};

impl ArrayCore {
    // Writes blocks of one stripe: the cells that change are made ready in memory, and a redo of them is run.
    pub(crate) fn write<R: Rack, C: StripeCode>(
        &mut self,
        rack: &mut R,
        code: &mut C,
        first: u64,
        from: &[[u8; SECTOR]],
    ) -> Result<(), ArrayFault>
        requires fits { C.shape code.old ≡ self.old.member.array.geometry }
        requires first { first < block_count self.old.member.array.geometry }
        requires thawed { self.old.member.array.frozen ≡ false }
        requires sectors { All IsSector from.now }
        requires together { AreOfOneStripe self.old.member.array.geometry first (length from.now) }
        ensures does { WritesBlocks first from.now (outcome result)
            (snapshot self.old.member (told R.Rack rack.old))
            (snapshot self.new.member (told R.Rack rack.new)) }
        ensures fits { C.shape code.new ≡ self.new.member.array.geometry }
        ensures geometry { self.new.member.array.geometry ≡ self.old.member.array.geometry }
        ensures kept { self.old.stopped ≡ None → Keeps (outcome result) self.new.stopped }
        ensures whole { length from.now ≡ data_cells self.old.member.array.geometry →
            R.reads rack.new ≡ R.reads rack.old }
        ensures once { (cells : Cells) →
            AreOfBlocks self.old.member.array.geometry first (length from.now) cells →
            RisesAtMost (cell_count cells) (R.reads rack.old) (R.reads rack.new) ⊎
            LacksOne (first / data_cells self.old.member.array.geometry) cells
            (snapshot self.old.member (told R.Rack rack.old)) (told R.Rack rack.new) }
        ensures reads { RisesAtMost (2 * cells_of self.old.member.array.geometry)
            (R.reads rack.old) (R.reads rack.new) }
    {
        let redo = redo_of(code, &self.member.geometry(), first, from.len());
        self.make_ready(rack, code, first, from, &redo)?;
        Ok(self.redo(rack, &redo)?)
    }

    // Makes the cells of a redo of these blocks ready in memory.
    fn make_ready<R: Rack, C: StripeCode>(
        &mut self,
        rack: &mut R,
        code: &mut C,
        first: u64,
        from: &[[u8; SECTOR]],
        redo: &Redo,
    ) -> Result<(), ArrayFault>
        requires fits { C.shape code.old ≡ self.old.member.array.geometry }
        requires first { first < block_count self.old.member.array.geometry }
        requires together { AreOfOneStripe self.old.member.array.geometry first (length from.now) }
        requires redo { IsRedo self.old.member.array.geometry redo.now }
        requires stripe { redo.now.stripe ≡ first / data_cells self.old.member.array.geometry }
        requires change { AreOfBlocks self.old.member.array.geometry first (length from.now)
            redo.now.cells }
        ensures does { Readies redo.now first from.now self.new.stripe (outcome result)
            (snapshot self.old.member (told R.Rack rack.old))
            (snapshot self.new.member (told R.Rack rack.new)) }
        ensures later { IsLater (told R.Rack rack.old) (told R.Rack rack.new) }
        ensures fits { C.shape code.new ≡ self.new.member.array.geometry }
        ensures geometry { self.new.member.array.geometry ≡ self.old.member.array.geometry }
        ensures kept { self.old.stopped ≡ None → Keeps (outcome result) self.new.stopped }
        ensures whole { length from.now ≡ data_cells self.old.member.array.geometry →
            R.reads rack.new ≡ R.reads rack.old }
        ensures once { RisesAtMost (cell_count redo.now.cells) (R.reads rack.old) (R.reads rack.new)
            ⊎ LacksOne redo.now.stripe redo.now.cells
            (snapshot self.old.member (told R.Rack rack.old)) (told R.Rack rack.new) }
        ensures reads { RisesAtMost (2 * cells_of self.old.member.array.geometry)
            (R.reads rack.old) (R.reads rack.new) }
    {
        let geometry = self.member.geometry();
        if from.len() == usize::from(geometry.u()) {
            fill::<C, Brand>(
                Blank::new(1),
                code,
                &geometry,
                &mut self.stripe,
                first,
                from,
            );
            return Ok(());
        }
        self.prepare(rack, code, redo)?;
        set::<C, Brand>(
            Blank::new(1),
            code,
            &geometry,
            &mut self.stripe,
            first,
            from,
        );
        Ok(())
    }

    // Makes the cells of a redo known in memory: where they lie on live slots they alone are read. Where one of them couldn't be
    // had the stripe is loaded.
    fn prepare<R: Rack, C: StripeCode>(
        &mut self,
        rack: &mut R,
        code: &mut C,
        redo: &Redo,
    ) -> Result<(), ArrayFault>
        requires fits { C.shape code.old ≡ self.old.member.array.geometry }
        requires redo { IsRedo self.old.member.array.geometry redo.now }
        ensures does { (count : ℕ) → count < data_cells self.old.member.array.geometry →
            Prepares redo.now.stripe count redo.now.cells self.new.stripe (outcome result)
            (snapshot self.old.member (told R.Rack rack.old))
            (snapshot self.new.member (told R.Rack rack.new)) }
        ensures later { IsLater (told R.Rack rack.old) (told R.Rack rack.new) }
        ensures fits { C.shape code.new ≡ self.new.member.array.geometry }
        ensures geometry { self.new.member.array.geometry ≡ self.old.member.array.geometry }
        ensures kept { self.old.stopped ≡ None → Keeps (outcome result) self.new.stopped }
        ensures once { RisesAtMost (cell_count redo.now.cells) (R.reads rack.old) (R.reads rack.new)
            ⊎ LacksOne redo.now.stripe redo.now.cells
            (snapshot self.old.member (told R.Rack rack.old)) (told R.Rack rack.new) }
        ensures reads { RisesAtMost (2 * cells_of self.old.member.array.geometry)
            (R.reads rack.old) (R.reads rack.new) }
    {
        let geometry = self.member.geometry();
        let live = self.live();
        if !lie_on(&redo.cells, &live) {
            return self.load(rack, code, redo.stripe);
        }
        let gathered = gather_cells(
            rack,
            &geometry,
            live,
            redo.stripe,
            &redo.cells,
            &mut self.stripe,
        );
        self.fence_if_any(rack, gathered.gone)?;
        if gathered.erased.count() == 0 {
            return Ok(());
        }
        self.load(rack, code, redo.stripe)
    }
}

// The redo of so many blocks of a stripe, from this one on. Its cells are those that change with one of them, or all of the
// stripe where they fill it.
fn redo_of<C: StripeCode>(code: &C, geometry: &Geometry, first: u64, count: usize) -> Redo
    requires fits { C.shape code.now ≡ geometry.now }
    requires first { first < block_count geometry.now }
    requires together { AreOfOneStripe geometry.now first count }
    ensures redo { IsRedo geometry.now result }
    ensures stripe { result.stripe ≡ first / data_cells geometry.now }
    ensures change { AreOfBlocks geometry.now first count result.cells }
{
    let stripe = geometry.place_of(first).stripe;
    let cells = if count == usize::from(geometry.u()) {
        geometry.cells()
    } else {
        dependents(code, geometry, first, count)
    };
    Redo { stripe, cells }
}

// The cells that change with one of these blocks.
fn dependents<C: StripeCode>(code: &C, geometry: &Geometry, first: u64, count: usize) -> CellSet
    requires fits { C.shape code.now ≡ geometry.now }
    requires limits { IsWithinLimits geometry.now }
    requires below { first + count ≤ block_count geometry.now }
    ensures members { (i j : ℕ) → HasCell result i j ↔ ChangesWith geometry.now first count i j }
    ensures formed { IsCellSet result }
{
    let mut cells = CellSet::empty();
    for at in 0..count {
        let place = geometry.place_of(first + at as u64);
        cells = cells.union(&code.dependents(place.row, place.slot));
    }
    cells
}

// Whether each of these cells lies on one of the slots.
fn lie_on(cells: &CellSet, slots: &Slots) -> bool
    ensures lacking { result ≡ false →
        (i : ℕ) × (j : ℕ) × HasCell cells.now i j × (¬ HasSlot slots.now j) }
{
    let counts = cells.counts();
    for slot in 0..32u8 {
        if counts[usize::from(slot)] > 0 && !slots.has(slot) {
            return false;
        }
    }
    true
}

// Sets these blocks in a stripe of which the cells that change with them are known.
fn set<C: StripeCode, L: Ledger>(
    blank: Blank,
    code: &mut C,
    geometry: &Geometry,
    stripe: &mut Stripe,
    first: u64,
    from: &[[u8; SECTOR]],
)
    requires name { blank.name ≡ L.name }
    requires parts { blank.parts ≡ L.parts }
    requires some { 0 < L.parts }
    requires fits { C.shape code.old ≡ geometry.now }
    requires of { IsStripeOf geometry.now stripe.old }
    requires limits { IsWithinLimits geometry.now }
    requires below { first + length from.now ≤ block_count geometry.now }
    requires few { length from.now < data_cells geometry.now }
    ensures set { (t : ℕ) (cells : Cells) →
        AreOfBlocks geometry.now first (length from.now) cells →
        AreSet geometry.now t first from.now cells stripe.old stripe.new }
    ensures of { IsStripeOf geometry.now stripe.new }
    ensures fits { C.shape code.new ≡ geometry.now }
{
    let mut steps = Steps::<L>::new(blank);
    for at in 0..from.len() {
        let place = geometry.place_of(first + at as u64);
        code.update(stripe, place.row, place.slot, &from[at], &mut steps);
    }
}

// Makes a stripe of these blocks, which fill it.
fn fill<C: StripeCode, L: Ledger>(
    blank: Blank,
    code: &mut C,
    geometry: &Geometry,
    stripe: &mut Stripe,
    first: u64,
    from: &[[u8; SECTOR]],
)
    requires name { blank.name ≡ L.name }
    requires parts { blank.parts ≡ L.parts }
    requires some { 0 < L.parts }
    requires fits { C.shape code.old ≡ geometry.now }
    requires of { IsStripeOf geometry.now stripe.old }
    requires limits { IsWithinLimits geometry.now }
    requires first { first < block_count geometry.now }
    requires together { AreOfOneStripe geometry.now first (length from.now) }
    requires fill { length from.now ≡ data_cells geometry.now }
    ensures set { (cells : Cells) (loaded : Numbers) →
        AreSet geometry.now (first / data_cells geometry.now) first from.now cells loaded
        stripe.new }
    ensures of { IsStripeOf geometry.now stripe.new }
    ensures fits { C.shape code.new ≡ geometry.now }
{
    for at in 0..from.len() {
        let place = geometry.place_of(first + at as u64);
        stripe.put(place.row, place.slot, &from[at]);
    }
    code.encode(stripe, &mut Steps::<L>::new(blank));
}
