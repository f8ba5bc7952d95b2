ghost use Rattle.std.specs.Prelude.{◌≡◌, ℕ, ◌+◌, ◌<◌, IfOk, IsTrue, slice_index};
ghost use Rattle.stair_model.specs.Cell.{Data, cell_at, is_parity};
ghost use Rattle.stair_model.specs.Dependents.{IsFactor};
ghost use Rattle.stair_model.specs.Geometry.{data_cells};
ghost use Rattle.stair_model.specs.Stripe.{IsStripeOf, SECTOR};
ghost use Rattle.stair_std.specs.Cells.{IsPart};
ghost use Rattle.stair_std.specs.Coefficients.{IsGenerator, coefficient_of, nonzero_coefficients, parity_cells};
ghost use Rattle.stair_std.specs.Standard.{parity_byte, parity_steps};

use crate::cells::{Part, parity_count, part_at, parts_of};
use crate::units::{encode_units, set_column};
use stair_base::{Geometry, SECTOR, Stripe};
use stair_canon::Canon;
use stair_gf::{Steps, mul_add};
use std::alloc::{AllocError, Global};
use std::marker::Model;
use std::sync::ledger::Ledger;

/// The coefficients of each row parity and each global parity over the u data cells of a stripe.
///
/// A parity is the sum over the data cells of its coefficients times their blocks (Li and Lee, STAIR Codes, FAST 2014).
#[derive(Drop)]
pub(crate) struct Coefficients {
    geometry: Geometry,
    // The geometry's u.
    blocks: u16,
    // What each cell is, row by row.
    parts: Vec<Part>,
    // Parity by parity, and for each the data cells row by row.
    bytes: Vec<u8>,
}

impl Model for Coefficients {
    ghost use Rattle.stair_std.specs.Coefficients.{Coefficients as Table};
    ghost use Rattle.stair_std.specs.KeptCoefficients.{shown, AreKept};

    ghost Value = { Table };

    ghost view = { shown };

    ghost invariant = { AreKept };
}

impl Coefficients {
    /// The coefficients of this geometry. The error comes only for lack of memory.
    ///
    /// A stripe whose data cells are 1 at one byte position each is encoded for each 512 data cells, since the byte positions
    /// of a stripe don't touch each other.
    pub(crate) fn new(alloc: Global, geometry: &Geometry) -> Result<Coefficients, AllocError>
        ensures geometry { IfOk result (λ coefficients. coefficients.geometry ≡ geometry.now) }
        ensures generator { IfOk result IsGenerator }
    {
        let blocks = geometry.u();
        let parts = parts_of(alloc, geometry)?;
        let count = usize::from(parity_count(geometry)) * usize::from(blocks);
        let mut bytes = vec![in alloc; 0; count]?;
        let mut canon = Canon::new(alloc, geometry)?;
        let mut stripe = Stripe::new(alloc, geometry)?;
        for block in 0..blocks {
            if usize::from(block) % SECTOR == 0 {
                encode_units(&mut canon, &mut stripe, block);
            }
            set_column(geometry, &parts, &stripe, block, &mut bytes);
        }
        Ok(Coefficients {
            geometry: *geometry,
            blocks,
            parts,
            bytes,
        })
    }

    /// How many of them aren't zero.
    pub(crate) fn nonzero_count(&self) -> u64
        ensures { result ≡ nonzero_coefficients self.now }
    {
        self.bytes.iter().filter(|byte| **byte != 0).count() as u64
    }

    pub(crate) fn geometry(&self) -> Geometry
        ensures value { result ≡ self.now.geometry }
        ensures well_formed { IsGenerator self.now }
    {
        self.geometry
    }

    /// What the cell in this row of this slot's chunk is.
    pub(crate) fn part(&self, row: u8, slot: u8) -> Part
        requires row_in { row < self.now.geometry.r }
        requires slot_in { slot < self.now.geometry.n }
        ensures part { IsPart self.now.geometry row slot result }
        ensures well_formed { IsGenerator self.now }
    {
        part_at(&self.geometry, &self.parts, row, slot)
    }

    /// The coefficient of this parity, counted row by row, over this data cell.
    fn coefficient(&self, parity: u16, block: u16) -> u8
        requires parity_in { parity < parity_cells self.now.geometry }
        requires block_in { block < data_cells self.now.geometry }
        ensures { result ≡ coefficient_of self.now parity block }
    {
        self.bytes[usize::from(parity) * usize::from(self.blocks) + usize::from(block)]
    }

    /// The coefficient of this parity over the cell in this row of this slot's chunk, or 0 where that is a parity too.
    fn coefficient_over(&self, parity: u16, row: u8, slot: u8) -> u8
        requires parity_in { parity < parity_cells self.now.geometry }
        requires row_in { row < self.now.geometry.r }
        requires slot_in { slot < self.now.geometry.n }
        ensures block { (d : ℕ) → cell_at self.now.geometry row slot ≡ Data d →
            result ≡ coefficient_of self.now parity d }
        ensures parity { IsTrue (is_parity (cell_at self.now.geometry row slot)) → result ≡ 0 }
    {
        match self.part(row, slot) {
            Part::Block(block) => self.coefficient(parity, block),
            Part::Parity(_) => 0,
        }
    }

    /// The coefficient of the cell in this row of this slot's chunk over this data cell, or 0 where the cell is no parity.
    pub(crate) fn coefficient_at(&self, row: u8, slot: u8, block: u16) -> u8
        requires row_in { row < self.now.geometry.r }
        requires slot_in { slot < self.now.geometry.n }
        requires block_in { block < data_cells self.now.geometry }
        ensures parity { IsTrue (is_parity (cell_at self.now.geometry row slot)) →
            IsFactor self.now.geometry block row slot result }
        ensures block { (d : ℕ) → cell_at self.now.geometry row slot ≡ Data d → result ≡ 0 }
    {
        match self.part(row, slot) {
            Part::Block(_) => 0,
            Part::Parity(parity) => self.coefficient(parity, block),
        }
    }

    /// The factor of the cell in this row of this slot's chunk over this data cell: its coefficient where it is a parity; 1
    /// for the data cell itself, and 0 for all others.
    pub(crate) fn factor(&self, block: u16, row: u8, slot: u8) -> u8
        requires block_in { block < data_cells self.now.geometry }
        requires row_in { row < self.now.geometry.r }
        requires slot_in { slot < self.now.geometry.n }
        ensures { IsFactor self.now.geometry block row slot result }
    {
        match self.part(row, slot) {
            Part::Block(other) => u8::from(block == other),
            Part::Parity(parity) => self.coefficient(parity, block),
        }
    }

    /// This parity, counted row by row, of the stripe's blocks: a step for each coefficient of it that isn't zero.
    pub(crate) fn parity<L: Ledger>(
        &self,
        parity: u16,
        stripe: &Stripe,
        steps: &mut Steps<L>,
    ) -> [u8; SECTOR]
        requires of { IsStripeOf self.now.geometry stripe.now }
        requires parity_in { parity < parity_cells self.now.geometry }
        ensures sum { (p : ℕ) → p < SECTOR →
            slice_index result p ≡ parity_byte self.now stripe.now p parity }
        ensures cost { steps.new ≡ steps.old + parity_steps self.now parity }
    {
        let geometry = self.geometry();
        let mut sum = [0; SECTOR];
        for row in 0..geometry.r() {
            for slot in 0..geometry.n() {
                let by = self.coefficient_over(parity, row, slot);
                if by != 0 {
                    mul_add(&mut sum, stripe.cell(row, slot), by);
                    steps.tick();
                }
            }
        }
        sum
    }
}
