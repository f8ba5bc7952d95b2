ghost use Rattle.std.specs.Prelude.{◌≡◌, ℕ, IfErr, IfOk};
ghost use Rattle.stair_array.specs.Promise.{Opened};
ghost use Rattle.stair_engine.specs.Mending.{scrub_program, scrubbed, scrubbed_line as line_of_scrubbed, scrubs};
ghost use Rattle.stair_command.specs.Comes.{ExecutesOnDevices};
ghost use Rattle.stair_command.specs.Devices.{ExecutesWhole, device_view, devices};
ghost use Rattle.stair_command.specs.Fault.{status_of, status_of_fault};
ghost use Rattle.stair_command.specs.Outside.{outside, sink_alone};
ghost use Rattle.stair_command.specs.Program.{Over};
ghost use Rattle.stair_command.specs.Rack.{rack_view};
ghost use Rattle.stair_watch.specs.WatcherList.{AllStay};

use crate::line::put_line;
use crate::open::session;
use stair_base::StripeCode;
use stair_command::{Fault, ObservedArray, Status};
use stair_rack::{Rack, Sink, Watcher};
use stair_watch::Line;
use std::alloc::Global;

/// Opens the array of the rack, and scrubs all its stripes, in rising order.
pub(crate) fn scrub<R: Rack, K: Sink>(
    alloc: Global,
    rack: &mut R,
    output: &mut K,
    watchers: &mut Vec<Box<dyn Watcher>>,
) -> Result<Status, Fault>
    requires stay { AllStay hears watchers.old.items }
    ensures means { (counter : ℕ) → ExecutesWhole
        (device_view (rack_view R.Rack) hears)
        (sink_alone K.Sink)
        scrub_program (Over (status_of result))
        (outside tt output.old counter) (outside tt output.new counter)
        rack.old rack.new watchers.old.items watchers.new.items }
    ensures stay { AllStay hears watchers.new.items }
{
    let mut array = session(alloc, rack, watchers)?;
    let stripes = array.geometry().stripes();
    let cells = scrub_all(&mut array, rack, watchers)?;
    put_line(output, scrubbed_line(stripes, cells).bytes())
}

// Scrubs all stripes, and answers how many cells were written anew.
fn scrub_all<C: StripeCode, R: Rack>(
    array: &mut ObservedArray<C>,
    rack: &mut R,
    watchers: &mut Vec<Box<dyn Watcher>>,
) -> Result<u64, Fault>
    requires stay { AllStay hears watchers.old.items }
    ensures done { IfOk result (λ cells. ExecutesOnDevices
        (device_view (rack_view R.Rack) hears)
        (scrubs array.old.member.array.geometry 0 array.old.member.array.geometry.stripes 0)
        (scrubbed array.old.member.array.geometry.stripes cells)
        (devices rack.old (Opened array.old) watchers.old.items)
        (devices rack.new (Opened array.new) watchers.new.items)) }
    ensures refused { IfErr result (λ fault. ExecutesOnDevices
        (device_view (rack_view R.Rack) hears)
        (scrubs array.old.member.array.geometry 0 array.old.member.array.geometry.stripes 0)
        (Over (status_of_fault fault))
        (devices rack.old (Opened array.old) watchers.old.items)
        (devices rack.new (Opened array.new) watchers.new.items)) }
    ensures stay { AllStay hears watchers.new.items }
{
    let geometry = array.geometry();
    let slots = geometry.n();
    let mut cells = 0;
    for stripe in 0..geometry.stripes() {
        match array.scrub(rack, stripe, watchers) {
            Ok(count) => cells += u64::from(count),
            Err(fault) => return Err(Fault::Step { fault, slots }),
        }
    }
    Ok(cells)
}

// The line for so many stripes that were scrubbed, in which so many cells were written anew.
fn scrubbed_line(stripes: u32, cells: u64) -> Line
    ensures { result ≡ line_of_scrubbed stripes cells }
{
    let mut line = Line::new();
    line.push_named(b"scrubbed ", u64::from(stripes));
    line.push_named(b" stripes cells ", cells);
    line.push(b"\n");
    line
}
