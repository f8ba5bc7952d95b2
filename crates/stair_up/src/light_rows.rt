ghost use Rattle.std.specs.Prelude.{◌≡◌, ℕ, ◌<◌, ◌≤◌, slice_index, if◌then◌else◌};
ghost use Rattle.stair_model.specs.CellSet.{IsInStripe, count_in_row, has_cell};
ghost use Rattle.stair_up.specs.SolveSteps.{FindsLightRow, FindsLightRows, Keeps};

use stair_base::CellSet;
use stair_canon::{Canon, columns_by_count};
use stair_gf::Steps;
use std::sync::ledger::Ledger;

/// Solves the erased cells of each row that has at most m of them.
pub(crate) fn solve_light_rows<L: Ledger>(canon: &mut Canon, erased: &CellSet, steps: &mut Steps<L>)
    requires cells { IsInStripe canon.old.geometry erased.now }
    ensures kept { Keeps erased.now canon.old canon.new }
    ensures found { FindsLightRows erased.now canon.old canon.new }
{
    let geometry = canon.geometry();
    for row in 0..geometry.r() {
        let count = erased.count_in_row(row);
        if count <= geometry.m() {
            solve_light_row(canon, erased, row, steps);
        }
    }
}

/// Solves the erased cells of a row, at most m of them, from its other cells.
fn solve_light_row<L: Ledger>(canon: &mut Canon, erased: &CellSet, row: u8, steps: &mut Steps<L>)
    requires cells { IsInStripe canon.old.geometry erased.now }
    requires row { row < canon.old.geometry.r }
    requires light { count_in_row erased.now row ≤ canon.old.geometry.m }
    ensures kept { Keeps erased.now canon.old canon.new }
    ensures found { FindsLightRow erased.now row canon.old canon.new }
{
    let geometry = canon.geometry();
    let columns = columns_by_count(&geometry, &marks(erased, row));
    let known = &columns[usize::from(geometry.m())..usize::from(geometry.n())];
    let wanted = &columns[..usize::from(erased.count_in_row(row))];
    canon.solve_row(u16::from(row), known, wanted, steps);
}

/// For each slot 1 where its cell in this row is erased, and 0 where it isn't.
fn marks(erased: &CellSet, row: u8) -> [u8; 32]
    requires { row < 32 }
    ensures { (j : ℕ) → j < 32 →
        slice_index result j ≡ (if has_cell erased.now row j then 1 else 0) }
{
    let mut marks = [0; 32];
    for slot in 0..32u8 {
        marks[usize::from(slot)] = u8::from(erased.has(row, slot));
    }
    marks
}
