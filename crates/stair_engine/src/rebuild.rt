ghost use Rattle.std.specs.Prelude.{◌≡◌, ℕ, IfErr, IfOk};
ghost use Rattle.stair_model.specs.Geometry.{Geometry};
ghost use Rattle.stair_array.specs.Promise.{Opened};
ghost use Rattle.stair_engine.specs.Mending.{rebuild_program, rebuilt_line as line_of_rebuilt};
ghost use Rattle.stair_command.specs.Comes.{ExecutesOnDevices};
ghost use Rattle.stair_command.specs.Devices.{ExecutesWhole, device_view, devices};
ghost use Rattle.stair_command.specs.Fault.{status_of, status_of_fault};
ghost use Rattle.stair_command.specs.Outside.{outside, sink_alone};
ghost use Rattle.stair_command.specs.Program.{Over, Program, RebuildAll};
ghost use Rattle.stair_command.specs.Rack.{rack_view};
ghost use Rattle.stair_watch.specs.WatcherList.{AllStay};

use crate::line::put_line;
use crate::open::session;
use stair_base::StripeCode;
use stair_command::{Fault, ObservedArray, Status};
use stair_mend::Progress;
use stair_rack::{Rack, Sink, Watcher};
use stair_watch::Line;
use std::alloc::Global;

/// Opens the array of the rack, and rebuilds the slots that are Rebuilding to their end.
pub(crate) fn rebuild<R: Rack, K: Sink>(
    alloc: Global,
    rack: &mut R,
    output: &mut K,
    watchers: &mut Vec<Box<dyn Watcher>>,
) -> Result<Status, Fault>
    requires stay { AllStay hears watchers.old.items }
    ensures means { (counter : ℕ) → ExecutesWhole
        (device_view (rack_view R.Rack) hears)
        (sink_alone K.Sink)
        rebuild_program (Over (status_of result))
        (outside tt output.old counter) (outside tt output.new counter)
        rack.old rack.new watchers.old.items watchers.new.items }
    ensures stay { AllStay hears watchers.new.items }
{
    let mut array = session(alloc, rack, watchers)?;
    let steps = rebuild_all(&mut array, rack, watchers)?;
    put_line(output, rebuilt_line(steps).bytes())
}

/// Makes steps of a rebuild until there is nothing to rebuild, and answers how many there were.
pub(crate) fn rebuild_all<C: StripeCode, R: Rack>(
    array: &mut ObservedArray<C>,
    rack: &mut R,
    watchers: &mut Vec<Box<dyn Watcher>>,
) -> Result<u64, Fault>
    requires stay { AllStay hears watchers.old.items }
    ensures done { IfOk result (λ steps. (k : ℕ → Program) → ExecutesOnDevices
        (device_view (rack_view R.Rack) hears)
        (RebuildAll array.old.member.array.geometry.n 0 k) (k steps)
        (devices rack.old (Opened array.old) watchers.old.items)
        (devices rack.new (Opened array.new) watchers.new.items)) }
    ensures refused { IfErr result (λ fault. (k : ℕ → Program) → ExecutesOnDevices
        (device_view (rack_view R.Rack) hears)
        (RebuildAll array.old.member.array.geometry.n 0 k) (Over (status_of_fault fault))
        (devices rack.old (Opened array.old) watchers.old.items)
        (devices rack.new (Opened array.new) watchers.new.items)) }
    ensures geometry { array.new.member.array.geometry ≡ array.old.member.array.geometry }
    ensures stay { AllStay hears watchers.new.items }
{
    let slots = array.geometry().n();
    let mut steps = 0;
    loop {
        let came = match array.rebuild_step(rack, watchers) {
            Ok(came) => came,
            Err(fault) => return Err(Fault::Rebuild { fault, slots }),
        };
        if let Progress::Nothing = came {
            return Ok(steps);
        }
        steps += 1;
    }
}

/// The line for so many steps.
pub(crate) fn rebuilt_line(steps: u64) -> Line
    ensures { result ≡ line_of_rebuilt steps }
{
    let mut line = Line::new();
    line.push_named(b"rebuild ", steps);
    line.push(b" steps\n");
    line
}
