ghost use Rattle.std.specs.Prelude.{◌≡◌, ℕ, ◌*◌, ◌+◌, ◌<◌, ◌↔◌, IfOk, IfSome, IsSome, All, length, replicate, slice_index};
ghost use Rattle.stair_model.specs.Canonical.{canonical_chunks, canonical_rows};
ghost use Rattle.stair_model.specs.CauchyCode.{AreDistinct, AreKnownPlaces};
ghost use Rattle.stair_model.specs.CellSet.{HasCell};
ghost use Rattle.stair_model.specs.Geometry.{IsWithinLimits, data_chunks, greatest_coverage};
ghost use Rattle.stair_model.specs.Stripe.{IsStripeOf, IsWellFormed as IsWellFormedStripe, IsSector, SECTOR, cell, with_cell};
ghost use Rattle.stair_mds.specs.Solving.{AreWantedPlaces, IsLineOf, along};
ghost use Rattle.stair_canon.specs.Canonical.{IsKnown, IsWellFormed, number, symbol};
ghost use Rattle.stair_canon.specs.Order.{IsOrderOf};
ghost use Rattle.stair_canon.specs.Parities.{AreParities};
ghost use Rattle.stair_canon.specs.Solving.{ExtendsChunk, Loads, SolvesChunk, SolvesRow, SolvesRows, column_shape, row_shape};

use crate::codes::Codes;
use crate::known::KnownSymbols;
use crate::order::Order;
use crate::parities::parities;
use stair_base::{CellSet, Geometry, Stripe};
use stair_gf::Steps;
use stair_mds::{Line, SYMBOL, numbers_from};
use std::alloc::{AllocError, Global};
use std::marker::Model;
use std::sync::ledger::Ledger;

/// A canonical stripe (Li and Lee, STAIR Codes, FAST 2014): r+e_max rows of n+m' symbols of 512 bytes.
///
/// Columns 0 to n-1 are the chunks of a stripe, whose cells are the symbols of their rows 0 to r-1. Columns n to n+m'-1 are
/// the intermediate chunks, which the row code adds to each row, beside the row parities. Rows r to r+e_max-1 are virtual
/// symbols, which the column code adds to each chunk. A symbol is known once it was loaded, extended or solved.
#[derive(Drop)]
pub struct Canon {
    geometry: Geometry,
    row_codes: Codes,
    column_codes: Codes,
    // Of the row parities and the global parities.
    order: Order,
    // Row by row.
    symbols: KnownSymbols,
}

impl Model for Canon {
    ghost use Rattle.stair_canon.specs.Canonical.{CanonicalStripe};

    ghost Value = { CanonicalStripe };

    ghost use Rattle.stair_canon.specs.Kept.{shown, IsKept};

    ghost view = { shown };

    ghost invariant = { IsKept };
}

impl Canon {
    /// The canonical stripe of this geometry in which every symbol is zero and none is known.
    ///
    /// The error comes only for lack of memory. All memory that later calls use is taken here: that of the symbols, and for
    /// each of 16 patterns of rows and 16 of chunks that of its coefficients, 32 bytes each. A pattern has up to (n-m)(m+m')
    /// of them for a row and r·e_max for a chunk, so each of these takes up to half a megabyte.
    pub fn new(alloc: Global, geometry: &Geometry) -> Result<Canon, AllocError>
        ensures geometry { IfOk result (λ canon. canon.geometry ≡ geometry.now) }
        ensures zero { IfOk result (λ canon. (i j : ℕ) →
            i < canonical_rows geometry.now → j < canonical_chunks geometry.now →
            symbol canon i j ≡ replicate SECTOR 0) }
        ensures unknown { IfOk result (λ canon. (i j : ℕ) →
            i < canonical_rows geometry.now → j < canonical_chunks geometry.now →
            ¬ IsKnown canon i j) }
        ensures well_formed { IfOk result IsWellFormed }
    {
        let columns = u16::from(geometry.n() + geometry.classes());
        let rows = u16::from(geometry.r() + geometry.e_max());
        Ok(Canon {
            geometry: *geometry,
            row_codes: Codes::rows(alloc, geometry.n(), geometry.m(), geometry.classes())?,
            column_codes: Codes::columns(alloc, geometry.r(), geometry.e_max())?,
            order: Order::new(geometry, parities(geometry)),
            symbols: KnownSymbols::new(alloc, rows * columns)?,
        })
    }

    /// The geometry whose canonical stripe it is.
    pub fn geometry(&self) -> Geometry
        ensures { result ≡ self.now.geometry }
    {
        self.geometry
    }

    /// Returns the order in which upstairs encoding solves the columns. Its erased cells are the row parities and the global
    /// parities of the stripe.
    pub fn order(&self) -> &Order
        ensures cells { AreParities self.now.geometry result.now.erased }
        ensures order { IsOrderOf self.now.geometry result.now }
        ensures limits { IsWithinLimits self.now.geometry }
    {
        &self.order
    }

    /// Returns the cells of its stripe's row parities and global parities.
    pub fn parities(&self) -> &CellSet
        ensures cells { AreParities self.now.geometry result.now }
        ensures limits { IsWithinLimits self.now.geometry }
    {
        &self.order.erased
    }

    /// The bytes of the symbol in this row, below r+e_max, of this column, below n+m'. None where it isn't known.
    pub fn symbol(&self, row: u16, column: u16) -> Option<&[u8; SYMBOL]>
        requires row_in { row < canonical_rows self.now.geometry }
        requires column_in { column < canonical_chunks self.now.geometry }
        ensures known { IsSome result ↔ IsKnown self.now row column }
        ensures value { IfSome result (λ bytes. bytes.now ≡ symbol self.now row column) }
        ensures sector { IfSome result (λ bytes. IsSector bytes.now) }
    {
        let number = self.number(row, column);
        if self.symbols.is_known(number) {
            Some(self.symbols.memory(number))
        } else {
            None
        }
    }

    /// Copies the cells of the stripe in. All other symbols, those of the intermediate chunks among them, are not known
    /// from then on, and zero, as the first e_l virtual symbols of intermediate chunk l are in every codeword.
    pub fn load(&mut self, stripe: &Stripe)
        requires { IsStripeOf self.old.geometry stripe.now }
        ensures loaded { Loads stripe.now self.old self.new }
        ensures well_formed { IsWellFormed self.new }
    {
        let columns = self.geometry.n() + self.geometry.classes();
        let mut number = 0;
        for row in 0..self.geometry.r() + self.geometry.e_max() {
            for column in 0..columns {
                if row < self.geometry.r() && column < self.geometry.n() {
                    self.symbols.put(number, stripe.cell(row, column));
                } else {
                    self.symbols.forget(number);
                }
                number += 1;
            }
        }
    }

    /// Copies the symbols of the cells into the stripe, whether they are known or not.
    pub fn store(&self, stripe: &mut Stripe)
        requires { IsStripeOf self.now.geometry stripe.old }
        ensures cells { (i j : ℕ) → i < self.now.geometry.r → j < self.now.geometry.n →
            cell stripe.new i j ≡ symbol self.now i j }
        ensures shape { IsStripeOf self.now.geometry stripe.new }
        ensures well_formed { IsWellFormedStripe stripe.new }
    {
        for row in 0..self.geometry.r() {
            for slot in 0..self.geometry.n() {
                self.store_cell(stripe, row, slot);
            }
        }
    }

    /// Copies the symbols of these cells into the stripe, whether they are known or not; all its other cells stay.
    pub fn store_cells(&self, cells: &CellSet, stripe: &mut Stripe)
        requires { IsStripeOf self.now.geometry stripe.old }
        ensures cells { (i j : ℕ) → i < self.now.geometry.r → j < self.now.geometry.n →
            HasCell cells.now i j → cell stripe.new i j ≡ symbol self.now i j }
        ensures others { (i j : ℕ) → i < self.now.geometry.r → j < self.now.geometry.n →
            ¬ HasCell cells.now i j → cell stripe.new i j ≡ cell stripe.old i j }
        ensures shape { IsStripeOf self.now.geometry stripe.new }
        ensures well_formed { IsWellFormedStripe stripe.new }
    {
        let rows = self.geometry.r();
        let chunks = self.geometry.n();
        // What the stripe keeps is known from here on.
        let _ = stripe.cell(0, 0);
        for row in 0..rows {
            for slot in 0..chunks {
                if cells.has(row, slot) {
                    self.store_cell(stripe, row, slot);
                }
            }
        }
    }

    /// Makes the virtual symbols of a chunk, which is a column below n+m', from the symbols of its rows 0 to r-1.
    ///
    /// It takes e_max·r steps.
    pub fn extend_chunk<L: Ledger>(&mut self, column: u16, steps: &mut Steps<L>)
        requires { column < canonical_chunks self.old.geometry }
        ensures extended { ExtendsChunk column self.old self.new }
        ensures well_formed { IsWellFormed self.new }
        ensures cost { steps.new ≡ steps.old + greatest_coverage self.old.geometry
            * self.old.geometry.r }
    {
        let r = usize::from(self.geometry.r());
        let e_max = usize::from(self.geometry.e_max());
        let rows = numbers_from(0);
        self.solve_chunk(column, &rows[..r], &rows[r..r + e_max], steps);
    }

    /// Solves the wanted symbols of a row, below r+e_max, by the row code: they are those of the one codeword of it that has
    /// the known ones.
    ///
    /// The known columns are n-m distinct ones, the wanted ones are distinct and none of them is known, and all are below
    /// n+m'. It takes a step for each known symbol of each wanted one.
    pub fn solve_row<L: Ledger>(
        &mut self,
        row: u16,
        known: &[u16],
        wanted: &[u16],
        steps: &mut Steps<L>,
    )
        requires row_in { row < canonical_rows self.old.geometry }
        requires known { AreKnownPlaces (data_chunks self.old.geometry)
            (canonical_chunks self.old.geometry) known.now }
        requires wanted { AreWantedPlaces (row_shape self.old.geometry) known.now wanted.now }
        ensures solved { SolvesRow row known.now wanted.now self.old self.new }
        ensures well_formed { IsWellFormed self.new }
        ensures cost { steps.new ≡ steps.old + length known.now * length wanted.now }
    {
        let line = self.row(row);
        self.symbols
            .solve(&mut self.row_codes, line, known, wanted, steps);
    }

    /// Solves the wanted symbols of each of these rows, in their order, as [`Canon::solve_row`] does.
    ///
    /// The rows are distinct, and the columns as for one row. They are one pattern, which is prepared at most once. It takes
    /// a step for each known symbol of each wanted one of each row.
    pub fn solve_rows<L: Ledger>(
        &mut self,
        rows: &[u16],
        known: &[u16],
        wanted: &[u16],
        steps: &mut Steps<L>,
    )
        requires rows_in { All (λ row. row < canonical_rows self.old.geometry) rows.now }
        requires distinct { AreDistinct (length rows.now) (slice_index rows.now) }
        requires known { AreKnownPlaces (data_chunks self.old.geometry)
            (canonical_chunks self.old.geometry) known.now }
        requires wanted { AreWantedPlaces (row_shape self.old.geometry) known.now wanted.now }
        ensures solved { SolvesRows rows.now known.now wanted.now self.old self.new }
        ensures well_formed { IsWellFormed self.new }
        ensures cost { steps.new ≡ steps.old + length rows.now
            * (length known.now * length wanted.now) }
    {
        for row in rows {
            self.solve_row(*row, known, wanted, steps);
        }
        // What it keeps is known from here on.
        let _ = &self.symbols;
    }

    /// Solves the wanted symbols of a chunk, which is a column below n+m', by the column code: they are those of the one
    /// codeword of it that has the known ones.
    ///
    /// The known rows are r distinct ones, the wanted ones are distinct and none of them is known, and all are below r+e_max.
    /// It takes a step for each known symbol of each wanted one.
    pub fn solve_chunk<L: Ledger>(
        &mut self,
        column: u16,
        known: &[u16],
        wanted: &[u16],
        steps: &mut Steps<L>,
    )
        requires column_in { column < canonical_chunks self.old.geometry }
        requires known { AreKnownPlaces self.old.geometry.r
            (canonical_rows self.old.geometry) known.now }
        requires wanted { AreWantedPlaces (column_shape self.old.geometry) known.now wanted.now }
        ensures solved { SolvesChunk column known.now wanted.now self.old self.new }
        ensures well_formed { IsWellFormed self.new }
        ensures cost { steps.new ≡ steps.old + length known.now * length wanted.now }
    {
        let line = self.chunk(column);
        self.symbols
            .solve(&mut self.column_codes, line, known, wanted, steps);
    }

    /// The line of a row, along which its columns lie.
    fn row(&self, row: u16) -> Line
        requires { row < canonical_rows self.now.geometry }
        ensures within { IsLineOf (row_shape self.now.geometry)
            (length self.now.symbols.memory) result }
        ensures along { (j : ℕ) → along result j ≡ number self.now.geometry row j }
    {
        Line {
            start: row * self.columns(),
            step: 1,
        }
    }

    /// The line of a chunk, along which its rows lie.
    fn chunk(&self, column: u16) -> Line
        requires { column < canonical_chunks self.now.geometry }
        ensures within { IsLineOf (column_shape self.now.geometry)
            (length self.now.symbols.memory) result }
        ensures along { (i : ℕ) → along result i ≡ number self.now.geometry i column }
    {
        Line {
            start: column,
            step: self.columns(),
        }
    }

    /// Copies the symbol of a cell into the stripe, whether it is known or not.
    fn store_cell(&self, stripe: &mut Stripe, row: u8, slot: u8)
        requires of { IsStripeOf self.now.geometry stripe.old }
        requires row_in { row < self.now.geometry.r }
        requires slot_in { slot < self.now.geometry.n }
        ensures cell { stripe.new ≡ with_cell stripe.old row slot (symbol self.now row slot) }
        ensures well_formed { IsWellFormedStripe stripe.new }
    {
        match self.symbol(u16::from(row), u16::from(slot)) {
            Some(bytes) => stripe.put(row, slot, bytes),
            None => stripe.put(row, slot, &[0; SYMBOL]),
        }
    }

    /// The number of the symbol in this row of this column.
    fn number(&self, row: u16, column: u16) -> u16
        requires row_in { row < canonical_rows self.now.geometry }
        requires column_in { column < canonical_chunks self.now.geometry }
        ensures value { result ≡ number self.now.geometry row column }
        ensures symbol { result < length self.now.symbols.memory }
        ensures mark { result < length self.now.symbols.known }
    {
        row * self.columns() + column
    }

    /// How many columns it has.
    fn columns(&self) -> u16
        ensures value { result ≡ canonical_chunks self.now.geometry }
        ensures well_formed { IsWellFormed self.now }
    {
        u16::from(self.geometry.n() + self.geometry.classes())
    }
}
