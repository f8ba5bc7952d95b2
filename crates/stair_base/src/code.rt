ghost use Rattle.std.specs.Prelude.{◌≡◌, ◌+◌, ◌<◌, ℕ, ◌↔◌, IfErr, IfOk, IsOk};
ghost use Rattle.stair_model.specs.Cell.{Data, cell_at};
ghost use Rattle.stair_model.specs.CellSet.{CellSet as Cells, IsCellSet, IsInStripe, cell_count};
ghost use Rattle.stair_model.specs.Coverage.{IsCovered};
ghost use Rattle.stair_model.specs.Dependents.{AreDependents, IsUpdatedFrom};
ghost use Rattle.stair_model.specs.Encoding.{IsEncodedFrom};
ghost use Rattle.stair_model.specs.Geometry.{Geometry as Numbers};
ghost use Rattle.stair_model.specs.Restoring.{IsRestored, SameHeld};
ghost use Rattle.stair_model.specs.Stripe.{IsStripeOf, IsWellFormed};

use crate::coverage::NotCovered;
use crate::geometry::Geometry;
use crate::sets::CellSet;
use crate::stripe::{SECTOR, Stripe};
use stair_gf::Steps;
use std::sync::ledger::Ledger;

/// The code of the stripes of one geometry (Li and Lee, STAIR Codes, FAST 2014): it encodes them, updates them where a block
/// is written, and restores their erased cells, in whatever way. No call is to take memory; no signature shows it, since a
/// `Vec` keeps its allocator.
pub trait StripeCode: Drop {
    // The geometry of its stripes.
    ghost shape: { Self → Numbers };

    // The steps in which it encodes a stripe.
    ghost cost: { Self → ℕ };

    /// The geometry of the stripes that it encodes and restores.
    fn geometry(&self) -> Geometry
        ensures { result ≡ shape self.now };

    /// Fills in the row parities and the global parities, so that the stripe is the codeword of its data cells.
    ///
    /// The data cells are kept, and what the other cells held before doesn't count. The stripe is one of the code's
    /// geometry. It takes exactly the code's cost in steps, whatever the cells hold.
    fn encode<L: Ledger>(&mut self, stripe: &mut Stripe, steps: &mut Steps<L>)
        requires { IsStripeOf (shape self.old) stripe.old }
        ensures encoded { IsEncodedFrom (shape self.old) stripe.old stripe.new }
        ensures takes { steps.new ≡ steps.old + cost self.old }
        ensures same_shape { shape self.new ≡ shape self.old }
        ensures same_cost { cost self.new ≡ cost self.old };

    /// The dependents of the data cell in this row of this slot's chunk: the cells that change with it, which are the cell
    /// itself and each row parity or global parity that its block has a factor in.
    fn dependents(&self, row: u8, slot: u8) -> CellSet
        requires row_in { row < (shape self.now).r }
        requires slot_in { slot < (shape self.now).n }
        requires data { (d : ℕ) × (cell_at (shape self.now) row slot ≡ Data d) }
        ensures dependents { (d : ℕ) → cell_at (shape self.now) row slot ≡ Data d →
            AreDependents (shape self.now) d result }
        ensures well_formed { IsCellSet result };

    /// Sets the block in this row of this slot's chunk to `from`, and changes its other dependents by the difference.
    ///
    /// The stripe is one of the code's geometry, and the cell a data cell. Where the dependents were those of a codeword, they
    /// are then those of that codeword with this block set; all other cells stay, and aren't looked at. It takes a step for
    /// each dependent but the cell itself.
    fn update<L: Ledger>(
        &mut self,
        stripe: &mut Stripe,
        row: u8,
        slot: u8,
        from: &[u8; SECTOR],
        steps: &mut Steps<L>,
    )
        requires of { IsStripeOf (shape self.old) stripe.old }
        requires row_in { row < (shape self.old).r }
        requires slot_in { slot < (shape self.old).n }
        requires data { (d : ℕ) × (cell_at (shape self.old) row slot ≡ Data d) }
        ensures updated { (d : ℕ) → cell_at (shape self.old) row slot ≡ Data d →
            IsUpdatedFrom (shape self.old) d from.now stripe.old stripe.new }
        ensures takes { (d : ℕ) (dependents : Cells) → cell_at (shape self.old) row slot ≡ Data d →
            AreDependents (shape self.old) d dependents →
            steps.new + 1 ≡ steps.old + cell_count dependents }
        ensures same_shape { shape self.new ≡ shape self.old }
        ensures same_cost { cost self.new ≡ cost self.old };

    /// Restores the erased cells of a stripe of the code's geometry, which are cells of it.
    ///
    /// What stands in the erased cells before doesn't matter. After Ok the stripe is the codeword that has the cells that
    /// weren't erased, if there is one; these stay as they were in any case. The error comes exactly where the erased cells
    /// aren't covered, and the stripe is then as it was.
    fn restore(&mut self, stripe: &mut Stripe, erased: &CellSet) -> Result<(), NotCovered>
        requires of { IsStripeOf (shape self.old) stripe.old }
        requires cells { IsInStripe (shape self.old) erased.now }
        ensures covered { IsOk result ↔ IsCovered (shape self.old) erased.now }
        ensures unchanged { IfErr result (λ _. stripe.new ≡ stripe.old) }
        ensures held { SameHeld (shape self.old) erased.now stripe.new stripe.old }
        ensures restored { IfOk result (λ _. IsRestored (shape self.old) erased.now stripe.old
            stripe.new) }
        ensures of { IsStripeOf (shape self.old) stripe.new }
        ensures well_formed { IfOk result (λ _. IsWellFormed stripe.new) }
        ensures same_shape { shape self.new ≡ shape self.old }
        ensures same_cost { cost self.new ≡ cost self.old };
}
