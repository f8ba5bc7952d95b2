ghost use Rattle.std.specs.Prelude.{◌≡◌};
ghost use Rattle.stair_model.specs.Cell.{is_parity};
ghost use Rattle.stair_base.specs.Kinds.{cell_of};
ghost use Rattle.stair_canon.specs.Parities.{AreParities};

use stair_base::{CellSet, Geometry, Kind};

/// The cells of the row parities and the global parities.
pub(crate) fn parities(geometry: &Geometry) -> CellSet
    ensures { AreParities geometry.now result }
{
    let mut cells = CellSet::empty();
    for row in 0..geometry.r() {
        for slot in 0..geometry.n() {
            if holds_parity(geometry.kind(row, slot)) {
                cells.add(row, slot);
            }
        }
    }
    cells
}

/// Whether it is a row parity or a global parity.
fn holds_parity(kind: Kind) -> bool
    ensures { result ≡ is_parity (cell_of kind) }
{
    match kind {
        Kind::Block(_) => false,
        Kind::Global { .. } | Kind::Parity(_) => true,
    }
}
