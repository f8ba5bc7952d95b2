ghost use Rattle.std.specs.Prelude.{◌≡◌, ◌<◌, IfOk};

use crate::geometry::Geometry;
use stair_gf::SYMBOL;
use std::alloc::{AllocError, Global};
use std::marker::Model;

/// How many bytes a sector has, and so a cell and a block.
pub const SECTOR: usize = SYMBOL;

/// The cells of a stripe: r rows of n cells of 512 bytes. Cell (i, j) is row i of the chunk in slot j.
#[derive(Drop)]
pub struct Stripe {
    rows: u8,
    chunks: u8,
    cells: Vec<[u8; SECTOR]>,
}

impl Model for Stripe {
    ghost use Rattle.stair_model.specs.Stripe.{Stripe as Cells, IsWellFormed};

    ghost Value = { Cells };

    ghost view = { λ s. record { rows = s.rows; chunks = s.chunks; cells = s.cells.items } };

    ghost invariant = { λ s. IsWellFormed (record { rows = s.rows; chunks = s.chunks; cells = s.cells.items }) };
}

impl Stripe {
    ghost use Rattle.stair_model.specs.Stripe.{IsSector, IsWellFormed, cell, with_cell, zero_stripe};

    /// The stripe of this geometry in which every byte is zero. The error comes only for lack of memory for r·n sectors.
    pub fn new(alloc: Global, geometry: &Geometry) -> Result<Stripe, AllocError>
        ensures zero { IfOk result (λ stripe. stripe ≡ zero_stripe geometry.now) }
        ensures well_formed { IfOk result IsWellFormed }
    {
        let count = usize::from(geometry.r()) * usize::from(geometry.n());
        let mut cells = Vec::with_capacity(alloc, count)?;
        for _made in 0..count {
            cells.push([0; SECTOR])?;
        }
        Ok(Stripe {
            rows: geometry.r(),
            chunks: geometry.n(),
            cells,
        })
    }

    /// The bytes of the cell in this row of this slot's chunk.
    pub fn cell(&self, row: u8, slot: u8) -> &[u8; SECTOR]
        requires row_in { row < self.now.rows }
        requires slot_in { slot < self.now.chunks }
        ensures value { result.now ≡ cell self.now row slot }
        ensures sector { IsSector result.now }
        ensures well_formed { IsWellFormed self.now }
    {
        &self.cells[usize::from(row) * usize::from(self.chunks) + usize::from(slot)]
    }

    /// Puts these bytes into the cell in this row of this slot's chunk; all other cells stay.
    pub fn put(&mut self, row: u8, slot: u8, bytes: &[u8; SECTOR])
        requires row_in { row < self.old.rows }
        requires slot_in { slot < self.old.chunks }
        ensures value { self.new ≡ with_cell self.old row slot bytes.now }
        ensures well_formed { IsWellFormed self.new }
    {
        self.cells[usize::from(row) * usize::from(self.chunks) + usize::from(slot)] = *bytes;
    }
}
