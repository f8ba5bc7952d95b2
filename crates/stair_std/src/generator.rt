ghost use Rattle.std.specs.Prelude.{◌≡◌, ℕ, ◌+◌, ◌<◌, IfOk, slice_index, bit_xor};
ghost use Rattle.stair_model.specs.Cell.{Data, cell_at};
ghost use Rattle.stair_model.specs.CellSet.{CellSet as Cells, IsCellSet, cell_count};
ghost use Rattle.stair_model.specs.Costs.{IsStandardCost};
ghost use Rattle.stair_model.specs.Dependents.{AreDependents, IsFactor, IsUpdatedFrom};
ghost use Rattle.stair_model.specs.Geometry.{data_cells};
ghost use Rattle.stair_model.specs.Stripe.{IsStripeOf, SECTOR};

use crate::cells::Part;
use crate::coefficients::Coefficients;
use stair_base::{CellSet, Geometry, SECTOR, Stripe};
use stair_gf::{Steps, mul_add};
use std::alloc::{AllocError, Global};
use std::marker::Model;
use std::sync::ledger::Ledger;

/// How the parities of a stripe depend on its data cells.
///
/// The factor of a cell over a data cell is each of its bytes in the encoded stripe whose data cell is filled with 01, and
/// all others with zeros. A parity is the sum over the data cells of its factors times their blocks (Li and Lee, STAIR
/// Codes, FAST 2014).
#[derive(Drop)]
pub struct Generator {
    pub(crate) coefficients: Coefficients,
    cost: u64,
}

impl Model for Generator {
    ghost use Rattle.stair_std.specs.Coefficients.{StandardCode};
    ghost use Rattle.stair_std.specs.Kept.{shown, IsKept};

    ghost Value = { StandardCode };

    ghost view = { shown };

    ghost invariant = { IsKept };
}

impl Generator {
    /// The generator of this geometry. The error comes only for lack of memory.
    ///
    /// It keeps a coefficient of each row parity and each global parity over each of the u data cells, a byte each, and what
    /// each cell is. Beside these it takes a stripe and a canonical stripe, and lets both go.
    pub fn new(alloc: Global, geometry: &Geometry) -> Result<Generator, AllocError>
        ensures geometry { IfOk result (λ generator. generator.geometry ≡ geometry.now) }
        ensures standard { IfOk result (λ generator. IsStandardCost geometry.now generator.cost) }
    {
        let coefficients = Coefficients::new(alloc, geometry)?;
        let cost = coefficients.nonzero_count();
        Ok(Generator { coefficients, cost })
    }

    /// The steps that encoding a stripe takes: the coefficients that aren't zero.
    pub fn cost(&self) -> u64
        ensures value { result ≡ self.now.cost }
        ensures standard { IsStandardCost self.now.geometry result }
    {
        self.cost
    }

    /// The factor of the cell in this row of this slot's chunk over the data cell with this number.
    ///
    /// For a data cell it is 1 where it is this one, and otherwise 0.
    pub fn factor(&self, number: u16, row: u8, slot: u8) -> u8
        requires number_in { number < data_cells self.now.geometry }
        requires row_in { row < self.now.geometry.r }
        requires slot_in { slot < self.now.geometry.n }
        ensures { IsFactor self.now.geometry number row slot result }
    {
        self.coefficients.factor(number, row, slot)
    }

    /// The dependents of the data cell in this row of this slot's chunk: the cells with a factor over it that isn't zero.
    pub fn dependents(&self, row: u8, slot: u8) -> CellSet
        requires row_in { row < self.now.geometry.r }
        requires slot_in { slot < self.now.geometry.n }
        requires data { (d : ℕ) × (cell_at self.now.geometry row slot ≡ Data d) }
        ensures dependents { (d : ℕ) → cell_at self.now.geometry row slot ≡ Data d →
            AreDependents self.now.geometry d result }
        ensures well_formed { IsCellSet result }
    {
        let block = number_of(&self.coefficients, row, slot);
        let geometry = self.coefficients.geometry();
        let mut dependents = CellSet::empty();
        for i in 0..geometry.r() {
            for j in 0..geometry.n() {
                if self.coefficients.factor(block, i, j) != 0 {
                    dependents.add(i, j);
                }
            }
        }
        dependents
    }

    /// Sets the block in this row of this slot's chunk to `from`, and adds to each other dependent its factor times the
    /// difference, a step each.
    ///
    /// Where the dependents were those of a codeword, they are then those of that codeword with this block set; all other
    /// cells stay, and aren't looked at. It takes no memory.
    pub fn update<L: Ledger>(
        &self,
        stripe: &mut Stripe,
        row: u8,
        slot: u8,
        from: &[u8; SECTOR],
        steps: &mut Steps<L>,
    )
        requires of { IsStripeOf self.now.geometry stripe.old }
        requires row_in { row < self.now.geometry.r }
        requires slot_in { slot < self.now.geometry.n }
        requires data { (d : ℕ) × (cell_at self.now.geometry row slot ≡ Data d) }
        ensures updated { (d : ℕ) → cell_at self.now.geometry row slot ≡ Data d →
            IsUpdatedFrom self.now.geometry d from.now stripe.old stripe.new }
        ensures takes { (d : ℕ) (dependents : Cells) → cell_at self.now.geometry row slot ≡ Data d →
            AreDependents self.now.geometry d dependents →
            steps.new + 1 ≡ steps.old + cell_count dependents }
    {
        let block = number_of(&self.coefficients, row, slot);
        let geometry = self.coefficients.geometry();
        let change = difference(stripe.cell(row, slot), from);
        for i in 0..geometry.r() {
            for j in 0..geometry.n() {
                let by = self.coefficients.coefficient_at(i, j, block);
                if by != 0 {
                    let mut sum = *stripe.cell(i, j);
                    mul_add(&mut sum, &change, by);
                    stripe.put(i, j, &sum);
                    steps.tick();
                }
            }
        }
        stripe.put(row, slot, from);
    }
}

/// The number of the data cell in this row of this slot's chunk.
fn number_of(coefficients: &Coefficients, row: u8, slot: u8) -> u16
    requires row_in { row < coefficients.now.geometry.r }
    requires slot_in { slot < coefficients.now.geometry.n }
    requires data { (d : ℕ) × (cell_at coefficients.now.geometry row slot ≡ Data d) }
    ensures cell { cell_at coefficients.now.geometry row slot ≡ Data result }
    ensures below { result < data_cells coefficients.now.geometry }
{
    match coefficients.part(row, slot) {
        Part::Block(block) => block,
        Part::Parity(_) => unreachable!(),
    }
}

/// By what a block changes from the old bytes to the new ones, at each byte.
fn difference(old: &[u8; SECTOR], new: &[u8; SECTOR]) -> [u8; SECTOR]
    ensures { (p : ℕ) → p < SECTOR →
        slice_index result p ≡ bit_xor (slice_index new.now p) (slice_index old.now p) }
{
    let mut change = *new;
    for (p, byte) in change.iter_mut().enumerate() {
        *byte ^= old[p];
    }
    change
}
