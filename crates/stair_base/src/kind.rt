ghost use Rattle.std.specs.Prelude.{◌≡◌, ◌<◌};
ghost use Rattle.stair_model.specs.Cell.{cell_at};
ghost use Rattle.stair_model.specs.Geometry.{data_chunks};
ghost use Rattle.stair_base.specs.Globals.{globals_before};
ghost use Rattle.stair_base.specs.Kinds.{cell_of};

use crate::geometry::Geometry;

/// What a cell of a stripe holds. The letters are those of [`Geometry`].
#[derive(Clone, Copy, Debug, PartialEq, Eq)]
pub enum Kind {
    /// The block with this number, below u, counted within the stripe.
    Block(u16),
    /// Global parity `h` of coverage class `l`: l is below m', and h below entry l of the coverage vector.
    Global { l: u8, h: u8 },
    /// The row parity with this number, below m, of the cell's row.
    Parity(u8),
}

impl Geometry {
    /// What the cell in this row of this slot's chunk holds; the slot is the chunk's number.
    ///
    /// Chunk n-m+k is row parity k. The bottom e_l cells of chunk n-m-m'+l are the global parities of class l, from the
    /// top. All other cells are blocks, numbered row by row from 0.
    pub fn kind(&self, row: u8, slot: u8) -> Kind
        requires row_in { row < self.now.r }
        requires slot_in { slot < self.now.n }
        ensures { cell_of result ≡ cell_at self.now row slot }
    {
        let data_chunks = self.n() - self.m();
        if slot >= data_chunks {
            return Kind::Parity(slot - data_chunks);
        }
        let first_global_chunk = data_chunks - self.classes();
        if slot >= first_global_chunk {
            let l = slot - first_global_chunk;
            let first_global_row = self.r() - self.coverage(l);
            if row >= first_global_row {
                let h = row - first_global_row;
                return Kind::Global { l, h };
            }
        }
        let before = u16::from(row) * u16::from(data_chunks) + u16::from(slot);
        Kind::Block(before - count_globals_before(self, row, slot))
    }
}

/// How many global parities come before this cell, row by row.
fn count_globals_before(geometry: &Geometry, row: u8, slot: u8) -> u16
    requires row_in { row < geometry.now.r }
    requires slot_in { slot < data_chunks geometry.now }
    ensures { result ≡ globals_before geometry.now row slot }
{
    let first_global_chunk = geometry.n() - geometry.m() - geometry.classes();
    let mut count = 0;
    for l in 0..geometry.classes() {
        let rows = if first_global_chunk + l < slot {
            row + 1
        } else {
            row
        };
        count += u16::from(rows.saturating_sub(geometry.r() - geometry.coverage(l)));
    }
    count
}
