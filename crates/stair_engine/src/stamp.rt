ghost use Rattle.std.specs.Prelude.{ℕ};
ghost use Rattle.stair_engine.specs.Mending.{freeze_program, label_program, thaw_program};
ghost use Rattle.stair_command.specs.Devices.{ExecutesWhole, device_view};
ghost use Rattle.stair_command.specs.Fault.{status_of};
ghost use Rattle.stair_command.specs.Outside.{outside, sink_alone};
ghost use Rattle.stair_command.specs.Program.{Over};
ghost use Rattle.stair_command.specs.Rack.{rack_view};
ghost use Rattle.stair_watch.specs.WatcherList.{AllStay};

use crate::line::put_line;
use crate::open::session;
use stair_command::{Fault, Status};
use stair_rack::{Rack, Sink, Watcher};
use stair_super::Label;
use std::alloc::Global;

/// Opens the array of the rack, and freezes it.
pub(crate) fn freeze<R: Rack, K: Sink>(
    alloc: Global,
    rack: &mut R,
    output: &mut K,
    watchers: &mut Vec<Box<dyn Watcher>>,
) -> Result<Status, Fault>
    requires stay { AllStay hears watchers.old.items }
    ensures means { (counter : ℕ) → ExecutesWhole
        (device_view (rack_view R.Rack) hears)
        (sink_alone K.Sink)
        freeze_program (Over (status_of result))
        (outside tt output.old counter) (outside tt output.new counter)
        rack.old rack.new watchers.old.items watchers.new.items }
    ensures stay { AllStay hears watchers.new.items }
{
    let mut array = session(alloc, rack, watchers)?;
    let slots = array.geometry().n();
    if let Err(fault) = array.set_frozen(rack, true, watchers) {
        return Err(Fault::Step { fault, slots });
    }
    put_line(output, b"frozen\n")
}

/// Opens the array of the rack, and thaws it.
pub(crate) fn thaw<R: Rack, K: Sink>(
    alloc: Global,
    rack: &mut R,
    output: &mut K,
    watchers: &mut Vec<Box<dyn Watcher>>,
) -> Result<Status, Fault>
    requires stay { AllStay hears watchers.old.items }
    ensures means { (counter : ℕ) → ExecutesWhole
        (device_view (rack_view R.Rack) hears)
        (sink_alone K.Sink)
        thaw_program (Over (status_of result))
        (outside tt output.old counter) (outside tt output.new counter)
        rack.old rack.new watchers.old.items watchers.new.items }
    ensures stay { AllStay hears watchers.new.items }
{
    let mut array = session(alloc, rack, watchers)?;
    let slots = array.geometry().n();
    if let Err(fault) = array.set_frozen(rack, false, watchers) {
        return Err(Fault::Step { fault, slots });
    }
    put_line(output, b"thawed\n")
}

/// Opens the array of the rack, and gives it this label.
pub(crate) fn label<R: Rack, K: Sink>(
    alloc: Global,
    text: Label,
    rack: &mut R,
    output: &mut K,
    watchers: &mut Vec<Box<dyn Watcher>>,
) -> Result<Status, Fault>
    requires stay { AllStay hears watchers.old.items }
    ensures means { (counter : ℕ) → ExecutesWhole
        (device_view (rack_view R.Rack) hears)
        (sink_alone K.Sink)
        (label_program text) (Over (status_of result))
        (outside tt output.old counter) (outside tt output.new counter)
        rack.old rack.new watchers.old.items watchers.new.items }
    ensures stay { AllStay hears watchers.new.items }
{
    let mut array = session(alloc, rack, watchers)?;
    let slots = array.geometry().n();
    if let Err(fault) = array.set_label(rack, text, watchers) {
        return Err(Fault::Step { fault, slots });
    }
    put_line(output, b"labelled\n")
}
