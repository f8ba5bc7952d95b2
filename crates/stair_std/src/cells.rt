//! The cells of a stripe in one row of numbers: cell (i, j) is number i·n + j.

ghost use Rattle.std.specs.Prelude.{◌≡◌, ◌*◌, ◌/◌, ◌%◌, ◌<◌, ◌≤◌, IfOk, IsTrue, MatchOption};
ghost use Rattle.stair_model.specs.Cell.{Data, cell_at, is_parity};
ghost use Rattle.stair_model.specs.Geometry.{IsWithinLimits};
ghost use Rattle.stair_std.specs.Cells.{AreParts, IsPart};
ghost use Rattle.stair_std.specs.Coefficients.{parity_cells};

use stair_base::{Geometry, Kind};
use std::alloc::{AllocError, Global};

/// Which of the data cells a cell is, or which of the row parities and global parities; both are counted row by row.
#[derive(Clone, Copy)]
pub(crate) enum Part {
    Block(u16),
    Parity(u16),
}

/// The cells of a stripe.
pub(crate) fn cell_count(geometry: &Geometry) -> u16
    ensures value { result ≡ geometry.now.r * geometry.now.n }
    ensures few { result ≤ 1024 }
    ensures limits { IsWithinLimits geometry.now }
{
    u16::from(geometry.r()) * u16::from(geometry.n())
}

/// The row parities and the global parities of a stripe.
pub(crate) fn parity_count(geometry: &Geometry) -> u16
    ensures value { result ≡ parity_cells geometry.now }
    ensures few { result ≤ 1024 }
{
    cell_count(geometry) - geometry.u()
}

/// The row and the slot of the cell with this number.
pub(crate) fn row_and_slot(geometry: &Geometry, number: u16) -> (u8, u8)
    requires { number < geometry.now.r * geometry.now.n }
    ensures row { result.0 ≡ number / geometry.now.n }
    ensures slot { result.1 ≡ number % geometry.now.n }
    ensures row_in { result.0 < geometry.now.r }
    ensures slot_in { result.1 < geometry.now.n }
{
    let chunks = u16::from(geometry.n());
    let row = number / chunks;
    let slot = number % chunks;
    (row as u8, slot as u8)
}

/// The number of the block that the cell holds. None where it is a parity, of its row or a global one.
pub(crate) fn block_at(geometry: &Geometry, row: u8, slot: u8) -> Option<u16>
    requires row_in { row < geometry.now.r }
    requires slot_in { slot < geometry.now.n }
    ensures { MatchOption result (IsTrue (is_parity (cell_at geometry.now row slot)))
        (λ d. cell_at geometry.now row slot ≡ Data d) }
{
    match geometry.kind(row, slot) {
        Kind::Block(d) => Some(d),
        Kind::Global { l: _, h: _ } => None,
        Kind::Parity(_) => None,
    }
}

/// What each cell is, row by row. The error comes only for lack of memory.
pub(crate) fn parts_of(alloc: Global, geometry: &Geometry) -> Result<Vec<Part>, AllocError>
    ensures { IfOk result (λ parts. AreParts geometry.now parts.items) }
{
    let count = cell_count(geometry);
    let mut parts = Vec::with_capacity(alloc, usize::from(count))?;
    let mut parities = 0;
    for number in 0..count {
        let (row, slot) = row_and_slot(geometry, number);
        match block_at(geometry, row, slot) {
            Some(block) => parts.push(Part::Block(block))?,
            None => {
                parts.push(Part::Parity(parities))?;
                parities += 1;
            }
        }
    }
    Ok(parts)
}

/// What the cell in this row of this slot's chunk is, by what each cell is.
pub(crate) fn part_at(geometry: &Geometry, parts: &[Part], row: u8, slot: u8) -> Part
    requires parts { AreParts geometry.now parts.now }
    requires row_in { row < geometry.now.r }
    requires slot_in { slot < geometry.now.n }
    ensures { IsPart geometry.now row slot result }
{
    parts[usize::from(row) * usize::from(geometry.n()) + usize::from(slot)]
}
