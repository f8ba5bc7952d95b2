ghost use Rattle.std.specs.Prelude.{◌≡◌, ◌<◌, ◌≤◌, ◌⊎◌, ◌↔◌, ℕ};
ghost use Rattle.stair_model.specs.CellSet.{HasCell, IsCellSet};
ghost use Rattle.stair_model.specs.Geometry.{IsWithinLimits};

use crate::geometry::Geometry;
use crate::sets::CellSet;

impl Geometry {
    /// Every cell of a stripe.
    pub fn cells(&self) -> CellSet
        ensures members { (i j : ℕ) → HasCell result i j ↔ ((i < self.now.r) × (j < self.now.n)) }
        ensures well_formed { IsCellSet result }
        ensures limits { IsWithinLimits self.now }
    {
        let mut cells = CellSet::empty();
        for row in 0..self.r() {
            add_row(&mut cells, row, self.n());
        }
        cells
    }
}

// Adds the cells of a row in the slots below `slots`.
fn add_row(cells: &mut CellSet, row: u8, slots: u8)
    requires row_in { row < 32 }
    requires slots_in { slots ≤ 32 }
    requires formed { IsCellSet cells.old }
    ensures members { (i j : ℕ) →
        HasCell cells.new i j ↔ (HasCell cells.old i j ⊎ ((i ≡ row) × (j < slots))) }
    ensures formed { IsCellSet cells.new }
{
    for slot in 0..slots {
        cells.add(row, slot);
    }
}
