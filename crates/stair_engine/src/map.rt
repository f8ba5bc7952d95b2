ghost use Rattle.std.specs.Prelude.{◌≡◌, ◌≢◌, ℕ, ◌+◌, ◌≤◌, ◌<◌, ◌⊎◌, ◌↔◌, IfOk, IfErr, length, slice_index};
ghost use Rattle.stair_model.specs.CellSet.{HasCell};
ghost use Rattle.stair_command.specs.Answer.{map_bytes};
ghost use Rattle.stair_command.specs.Outside.{source_view};
ghost use Rattle.stair_command.specs.Taking.{CutsShort};
ghost use Rattle.stair_engine.specs.Taking.{TakesMap};

use stair_base::{CellSet, Geometry};
use stair_command::{Fault, Intake};
use stair_rack::Source;

/// The byte of a cell that is held; every other byte is that of one that is erased.
const HELD: u8 = b'.';

/// The most chunks of a stripe.
const MAX_CHUNKS: usize = 32;

/// Takes a map, a byte for each cell of a stripe, row by row, and gives the cells that are erased.
pub(crate) fn take_map<S: Source>(
    geometry: &Geometry,
    intake: &mut Intake,
    input: &mut S,
) -> Result<CellSet, Fault>
    requires room { intake.old.took + map_bytes geometry.now ≤ intake.old.needed }
    ensures ok { IfOk result (λ erased. TakesMap (source_view S.Source) geometry.now
        intake.old intake.new erased input.old input.new) }
    ensures cut { IfErr result (CutsShort (source_view S.Source)
        intake.old input.old input.new) }
{
    let mut erased = CellSet::empty();
    let mut marks = [HELD; MAX_CHUNKS];
    for row in 0..geometry.r() {
        let marks = &mut marks[..usize::from(geometry.n())];
        intake.fill(input, marks)?;
        add_erased(&mut erased, row, marks);
    }
    Ok(erased)
}

/// Adds the cells of a row whose byte of the map is not that of a held one.
fn add_erased(erased: &mut CellSet, row: u8, marks: &[u8])
    requires row_in { row < 32 }
    requires slots_in { length marks.now ≤ 32 }
    ensures { (i j : ℕ) → HasCell erased.new i j
        ↔ (HasCell erased.old i j ⊎ ((i ≡ row) × (j < length marks.now)
        × (slice_index marks.now j ≢ 46))) }
{
    for (slot, mark) in marks.iter().enumerate() {
        if *mark != HELD {
            erased.add(row, slot as u8);
        }
    }
}
