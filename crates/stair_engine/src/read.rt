ghost use Rattle.std.specs.Prelude.{◌≡◌, ◌+◌, ◌^◌, ◌<◌, ℕ};
ghost use Rattle.stair_array.specs.Promise.{Opened};
ghost use Rattle.stair_engine.specs.Blocks.{read_program};
ghost use Rattle.stair_command.specs.Transfers.{reads};
ghost use Rattle.stair_command.specs.Devices.{ExecutesWhole, ExecutesWith, device_view, devices};
ghost use Rattle.stair_command.specs.Fault.{status_of};
ghost use Rattle.stair_command.specs.Outside.{outside, sink_alone};
ghost use Rattle.stair_command.specs.Program.{Over};
ghost use Rattle.stair_command.specs.Rack.{rack_view};
ghost use Rattle.stair_watch.specs.WatcherList.{AllStay};

use crate::open::{in_range, open};
use stair_base::{SECTOR, StripeCode};
use stair_command::{Fault, ObservedArray, Status, put_all};
use stair_member::survey;
use stair_rack::{Rack, Sink, Watcher};
use std::alloc::Global;

/// Opens the array of the rack, and puts out so many of its blocks from this one on.
pub(crate) fn read<R: Rack, K: Sink>(
    alloc: Global,
    first: u64,
    blocks: u64,
    rack: &mut R,
    output: &mut K,
    watchers: &mut Vec<Box<dyn Watcher>>,
) -> Result<Status, Fault>
    requires stay { AllStay hears watchers.old.items }
    ensures means { (counter : ℕ) → ExecutesWhole
        (device_view (rack_view R.Rack) hears)
        (sink_alone K.Sink)
        (read_program first blocks) (Over (status_of result))
        (outside tt output.old counter) (outside tt output.new counter)
        rack.old rack.new watchers.old.items watchers.new.items }
    ensures stay { AllStay hears watchers.new.items }
{
    let member = survey(rack)?;
    let geometry = member.geometry();
    let mut array = open(alloc, rack, member, watchers)?;
    in_range(&geometry, first, blocks)?;
    put_blocks(&mut array, first, blocks, rack, output, watchers)
}

// Each block is put out before the next is read.
fn put_blocks<C: StripeCode, R: Rack, K: Sink>(
    array: &mut ObservedArray<C>,
    first: u64,
    blocks: u64,
    rack: &mut R,
    output: &mut K,
    watchers: &mut Vec<Box<dyn Watcher>>,
) -> Result<Status, Fault>
    requires within { first + blocks < 2 ^ 64 }
    requires stay { AllStay hears watchers.old.items }
    ensures means { (counter : ℕ) → ExecutesWith
        (device_view (rack_view R.Rack) hears)
        (sink_alone K.Sink)
        (reads array.old.member.array.geometry first blocks) (Over (status_of result))
        (outside tt output.old counter) (outside tt output.new counter)
        (devices rack.old (Opened array.old) watchers.old.items)
        (devices rack.new (Opened array.new) watchers.new.items) }
    ensures stay { AllStay hears watchers.new.items }
{
    let slots = array.geometry().n();
    for done in 0..blocks {
        let mut bytes = [0; SECTOR];
        if let Err(fault) = array.read(rack, first + done, &mut bytes, watchers) {
            return Err(Fault::Step { fault, slots });
        }
        put_all(output, &bytes)?;
    }
    Ok(Status::Done)
}
