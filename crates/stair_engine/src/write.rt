ghost use Rattle.std.specs.Prelude.{◌≡◌, ℕ};
ghost use Rattle.stair_engine.specs.Blocks.{write_program};
ghost use Rattle.stair_command.specs.Devices.{ExecutesWhole, device_view};
ghost use Rattle.stair_command.specs.Fault.{status_of};
ghost use Rattle.stair_command.specs.Outside.{outside, views};
ghost use Rattle.stair_command.specs.Program.{Over};
ghost use Rattle.stair_command.specs.Rack.{rack_view};
ghost use Rattle.stair_watch.specs.WatcherList.{AllStay};

use crate::open::{in_range, open};
use stair_command::{Fault, Piece, Status, write_input};
use stair_member::survey;
use stair_rack::{Rack, Sink, Source, Watcher};
use std::alloc::Global;

/// Opens the array of the rack, and writes so many blocks from this one on, which are all of the input.
pub(crate) fn write<R: Rack, S: Source, K: Sink>(
    alloc: Global,
    first: u64,
    blocks: u64,
    rack: &mut R,
    input: &mut S,
    output: &mut K,
    watchers: &mut Vec<Box<dyn Watcher>>,
) -> Result<Status, Fault>
    requires stay { AllStay hears watchers.old.items }
    ensures means { (counter : ℕ) → ExecutesWhole
        (device_view (rack_view R.Rack) hears) (views S.Source K.Sink)
        (write_program first blocks) (Over (status_of result))
        (outside input.old output.old counter) (outside input.new output.new counter)
        rack.old rack.new watchers.old.items watchers.new.items }
    ensures stay { AllStay hears watchers.new.items }
{
    let member = survey(rack)?;
    let geometry = member.geometry();
    let mut piece = Piece::new(alloc, &geometry)?;
    let mut array = open(alloc, rack, member, watchers)?;
    in_range(&geometry, first, blocks)?;
    write_input(
        &mut array, &mut piece, first, blocks, rack, input, output, watchers,
    )?;
    Ok(Status::Done)
}
