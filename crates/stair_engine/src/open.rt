ghost use Rattle.std.specs.Prelude.{◌≡◌, ◌+◌, ◌*◌, ◌^◌, ◌<◌, true, IfErr, IfOk, Ok, OnOk};
ghost use Rattle.stair_array.specs.Machine.{Recover};
ghost use Rattle.stair_array.specs.Promise.{Found, Opened};
ghost use Rattle.stair_engine.specs.Blocks.{BeginsSession, EndsSession, IsPast, IsUnopened, is_in_range};
ghost use Rattle.stair_model.specs.Stripe.{SECTOR as BYTES};
ghost use Rattle.stair_command.specs.Devices.{device_view, devices};
ghost use Rattle.stair_command.specs.Rack.{rack_view};
ghost use Rattle.stair_command.specs.Steps.{Takes};
ghost use Rattle.stair_watch.specs.WatcherList.{AllStay};

use stair_base::Geometry;
use stair_codec::{By, Codec};
use stair_command::{Fault, ObservedArray};
use stair_member::{Member, survey};
use stair_rack::{Rack, Watcher};
use std::alloc::Global;

/// Looks for the array of the rack, and opens it.
pub(crate) fn session<R: Rack>(
    alloc: Global,
    rack: &mut R,
    watchers: &mut Vec<Box<dyn Watcher>>,
) -> Result<ObservedArray<Codec>, Fault>
    requires stay { AllStay hears watchers.old.items }
    ensures begins { IfOk result (λ array. BeginsSession
        (device_view (rack_view R.Rack) hears)
        array rack.old rack.new watchers.old.items watchers.new.items) }
    ensures refused { IfErr result (λ fault. EndsSession
        (device_view (rack_view R.Rack) hears)
        fault rack.old rack.new watchers.old.items watchers.new.items) }
    ensures stay { AllStay hears watchers.new.items }
{
    let member = survey(rack)?;
    open(alloc, rack, member, watchers)
}

/// Opens the array that a survey found on this rack, with no call between.
pub(crate) fn open<R: Rack>(
    alloc: Global,
    rack: &mut R,
    member: Member,
    watchers: &mut Vec<Box<dyn Watcher>>,
) -> Result<ObservedArray<Codec>, Fault>
    requires stay { AllStay hears watchers.old.items }
    ensures taken { IfOk result (λ array. Takes
        (device_view (rack_view R.Rack) hears)
        Recover (Ok member.array.geometry)
        (devices rack.old (Found member) watchers.old.items)
        (devices rack.new (Opened array) watchers.new.items)) }
    ensures refused { IfErr result (λ fault. IsUnopened
        (device_view (rack_view R.Rack) hears)
        member fault rack.old rack.new watchers.old.items watchers.new.items) }
    ensures stay { AllStay hears watchers.new.items }
{
    let code = Codec::new(alloc, &member.geometry(), By::Fewest)?;
    Ok(ObservedArray::open(alloc, rack, member, code, watchers)?)
}

/// Whether an array of this geometry has so many blocks from this one on.
pub(crate) fn in_range(geometry: &Geometry, first: u64, count: u64) -> Result<(), Fault>
    ensures within { OnOk result (is_in_range geometry.now first count ≡ true) }
    ensures fits { OnOk result ((first + count < 2 ^ 64) × (BYTES * count < 2 ^ 63)) }
    ensures past { IfErr result (IsPast geometry.now first count) }
{
    let limit = geometry.blocks();
    if count == 0 || (first <= limit && count <= limit - first) {
        return Ok(());
    }
    Err(Fault::OutOfRange {
        asked: first.max(limit),
        limit,
    })
}
