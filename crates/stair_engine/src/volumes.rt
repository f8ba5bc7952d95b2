ghost use Rattle.std.specs.Prelude.{◌≡◌, ℕ};
ghost use Rattle.stair_engine.specs.Volumes.{volumes_program};
ghost use Rattle.stair_command.specs.Devices.{ExecutesWhole, device_view};
ghost use Rattle.stair_command.specs.Fault.{status_of};
ghost use Rattle.stair_command.specs.Outside.{outside, views};
ghost use Rattle.stair_command.specs.Program.{Over};
ghost use Rattle.stair_command.specs.Rack.{rack_view};
ghost use Rattle.stair_volume.specs.Parts.{MakesSome};
ghost use Rattle.stair_watch.specs.WatcherList.{AllStay};

use crate::open::open;
use stair_base::SECTOR;
use stair_command::{Fault, Piece, Status};
use stair_conf::VolumeJob;
use stair_member::survey;
use stair_rack::{Rack, Sink, Source, Watcher};
use stair_volume::volume;
use std::alloc::Global;

/// Opens the array of the rack, and does a command on its volumes.
pub(crate) fn volumes<R: Rack, S: Source, K: Sink>(
    alloc: Global,
    job: &VolumeJob,
    rack: &mut R,
    input: &mut S,
    output: &mut K,
    watchers: &mut Vec<Box<dyn Watcher>>,
) -> Result<Status, Fault>
    requires some { MakesSome job.now }
    requires stay { AllStay hears watchers.old.items }
    ensures means { (counter : ℕ) → ExecutesWhole
        (device_view (rack_view R.Rack) hears) (views S.Source K.Sink)
        (volumes_program job.now) (Over (status_of result))
        (outside input.old output.old counter) (outside input.new output.new counter)
        rack.old rack.new watchers.old.items watchers.new.items }
    ensures stay { AllStay hears watchers.new.items }
{
    let member = survey(rack)?;
    let geometry = member.geometry();
    let zeros = vec![in alloc; 0; usize::from(geometry.u()) * SECTOR]?;
    let mut piece = Piece::new(alloc, &geometry)?;
    let mut array = open(alloc, rack, member, watchers)?;
    let done = volume(
        &mut array, rack, job, &zeros, &mut piece, input, output, watchers,
    );
    match done {
        Ok(()) => Ok(Status::Done),
        Err(fault) => Ok(fault.status(geometry.n())),
    }
}
