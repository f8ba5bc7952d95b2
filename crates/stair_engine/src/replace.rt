ghost use Rattle.std.specs.Prelude.{◌≡◌, ◌<◌, ℕ, IfErr, IfOk};
ghost use Rattle.stair_array.specs.Promise.{Opened};
ghost use Rattle.stair_engine.specs.Mending.{replace_program, replaced, replaced_line as line_of_replaced, replaces};
ghost use Rattle.stair_command.specs.Comes.{ExecutesOnDevices};
ghost use Rattle.stair_command.specs.Devices.{ExecutesWhole, device_view, devices};
ghost use Rattle.stair_command.specs.Fault.{status_of, status_of_fault};
ghost use Rattle.stair_command.specs.Outside.{outside, sink_alone};
ghost use Rattle.stair_command.specs.Program.{Over};
ghost use Rattle.stair_command.specs.Rack.{rack_view};
ghost use Rattle.stair_watch.specs.WatcherList.{AllStay};

use crate::line::put_line;
use crate::open::session;
use crate::rebuild::rebuild_all;
use stair_base::StripeCode;
use stair_command::{Fault, ObservedArray, Status};
use stair_rack::{Rack, Sink, Watcher};
use stair_super::Mark;
use stair_watch::Line;
use std::alloc::Global;

/// Opens the array of the rack, admits the device in this slot, and rebuilds all that is rebuilt to its end.
pub(crate) fn replace<R: Rack, K: Sink>(
    alloc: Global,
    slot: u64,
    rack: &mut R,
    output: &mut K,
    watchers: &mut Vec<Box<dyn Watcher>>,
) -> Result<Status, Fault>
    requires stay { AllStay hears watchers.old.items }
    ensures means { (counter : ℕ) → ExecutesWhole
        (device_view (rack_view R.Rack) hears)
        (sink_alone K.Sink)
        (replace_program slot) (Over (status_of result))
        (outside tt output.old counter) (outside tt output.new counter)
        rack.old rack.new watchers.old.items watchers.new.items }
    ensures stay { AllStay hears watchers.new.items }
{
    let mut array = session(alloc, rack, watchers)?;
    let slots = array.geometry().n();
    if slot >= u64::from(slots) {
        return Err(Fault::OutOfRange {
            asked: slot,
            limit: u64::from(slots),
        });
    }
    replace_slot(&mut array, slot as u8, rack, watchers)?;
    put_line(output, replaced_line(slot).bytes())
}

// Admits the device in this slot, which the array has, and rebuilds it.
fn replace_slot<C: StripeCode, R: Rack>(
    array: &mut ObservedArray<C>,
    slot: u8,
    rack: &mut R,
    watchers: &mut Vec<Box<dyn Watcher>>,
) -> Result<(), Fault>
    requires has { slot < array.old.member.array.geometry.n }
    requires few { slot < 32 }
    requires stay { AllStay hears watchers.old.items }
    ensures done { IfOk result (λ live. ExecutesOnDevices
        (device_view (rack_view R.Rack) hears)
        (replaces array.old.member.array.geometry slot) (replaced slot)
        (devices rack.old (Opened array.old) watchers.old.items)
        (devices rack.new (Opened array.new) watchers.new.items)) }
    ensures refused { IfErr result (λ fault. ExecutesOnDevices
        (device_view (rack_view R.Rack) hears)
        (replaces array.old.member.array.geometry slot) (Over (status_of_fault fault))
        (devices rack.old (Opened array.old) watchers.old.items)
        (devices rack.new (Opened array.new) watchers.new.items)) }
    ensures stay { AllStay hears watchers.new.items }
{
    let slots = array.geometry().n();
    if let Err(fault) = array.replace(rack, slot, watchers) {
        return Err(Fault::Replace { fault, slots });
    }
    rebuild_all(array, rack, watchers)?;
    let mark = match array.mark(slot) {
        Ok(mark) => mark,
        Err(fault) => return Err(Fault::Step { fault, slots }),
    };
    if let Mark::Live = mark {
        Ok(())
    } else {
        Err(Fault::Gone(slot))
    }
}

// The line for a slot whose new device is Live.
fn replaced_line(slot: u64) -> Line
    ensures { result ≡ line_of_replaced slot }
{
    let mut line = Line::new();
    line.push_named(b"replaced ", slot);
    line.push(b"\n");
    line
}
