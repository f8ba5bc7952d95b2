ghost use Rattle.std.specs.Prelude.{ℕ, ◌<◌, ◌≤◌};
ghost use Rattle.stair_model.specs.CellSet.{HasCell};
ghost use Rattle.stair_up.specs.RowsSteps.{AreRowsByNeed};

use stair_base::CellSet;
use stair_mds::{MAX_PLACES, numbers_from};

/// The rows of a canonical stripe in the order in which a chunk is solved: its first r symbols by this order are known, and
/// those after them are wanted.
///
/// In the place of each erased row stands a virtual row, from row r on, and the erased row in the place of that.
pub(crate) fn rows_by_need(erased: &CellSet, slot: u8, r: u8) -> [u16; MAX_PLACES]
    requires slot { slot < 32 }
    requires rows { r ≤ 32 }
    requires inside { (i : ℕ) → HasCell erased.now i slot → i < r }
    ensures { AreRowsByNeed erased.now slot r result }
{
    let mut rows = numbers_from(0);
    let mut virtual_row = usize::from(r);
    for row in 0..r {
        if erased.has(row, slot) {
            rows.swap(usize::from(row), virtual_row);
            virtual_row += 1;
        }
    }
    rows
}
