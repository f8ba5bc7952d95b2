ghost use Rattle.std.specs.Prelude.{◌≡◌, ℕ};
ghost use Rattle.stair_nbd.specs.Client.{status_of as status_of_session};
ghost use Rattle.stair_engine.specs.Serving.{serve_program};
ghost use Rattle.stair_command.specs.Devices.{ExecutesWhole, device_view};
ghost use Rattle.stair_command.specs.Fault.{status_of};
ghost use Rattle.stair_command.specs.Outside.{outside, views};
ghost use Rattle.stair_command.specs.Program.{Over};
ghost use Rattle.stair_command.specs.Rack.{rack_view};
ghost use Rattle.stair_watch.specs.WatcherList.{AllStay};

use crate::open::session;
use stair_command::{Fault, Status};
use stair_nbd::{BUFFER, NbdFault};
use stair_rack::{Rack, Sink, Source, Watcher};
use std::alloc::Global;

/// Opens the array of the rack, and serves one client of it, which speaks NBD.
pub(crate) fn serve<R: Rack, S: Source, K: Sink>(
    alloc: Global,
    rack: &mut R,
    input: &mut S,
    output: &mut K,
    watchers: &mut Vec<Box<dyn Watcher>>,
) -> Result<Status, Fault>
    requires stay { AllStay hears watchers.old.items }
    ensures means { (counter : ℕ) → ExecutesWhole
        (device_view (rack_view R.Rack) hears) (views S.Source K.Sink)
        serve_program (Over (status_of result))
        (outside input.old output.old counter) (outside input.new output.new counter)
        rack.old rack.new watchers.old.items watchers.new.items }
    ensures stay { AllStay hears watchers.new.items }
{
    let mut buffer = vec![in alloc; 0; BUFFER]?;
    let mut array = session(alloc, rack, watchers)?;
    let served = stair_nbd::session(&mut array, rack, &mut buffer, input, output, watchers);
    Ok(ended(served))
}

// The status of a session of a client.
fn ended(served: Result<(), NbdFault>) -> Status
    ensures { result ≡ status_of_session served }
{
    match served {
        Ok(()) => Status::Done,
        Err(fault) => Status::from(fault),
    }
}
