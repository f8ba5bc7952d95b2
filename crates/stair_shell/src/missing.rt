// The array of the folder if none can be opened, since too few of its devices are there.
ghost use Rattle.std.specs.Prelude.{◌<◌};

use crate::report::{Device, report};
use stair_base::{FIRST_PLACE, Geometry, SECOND_PLACE, SECTOR};
use stair_rack::{Got, Rack, Reply};
use stair_status::identity_digits;
use stair_super::{Mark, Super, newer_of, read_super};
use std::fmt;

/// Reports the array of the latest epoch among the devices: its identity, its label, its geometry and its epoch. Of each slot whose
/// device is missing or takes no part it reports the last epoch in which the slot was live, as far as the superblocks tell. A device in
/// another slot than its own is reported too. Returns the geometry of the array.
pub(crate) fn report_missing<R: Rack>(rt: &HostRuntime, rack: &mut R) -> Option<Geometry> {
    let latest = latest_of(rack)?;
    report_array(rt, &latest);
    for slot in 0..32 {
        report_strange(rt, rack, &latest, slot);
    }
    for slot in 0..32 {
        if slot < latest.geometry().n() {
            report_slot(rt, rack, &latest, slot);
        }
    }
    Some(latest.geometry())
}

// The superblock of the latest epoch that a device has.
fn latest_of<R: Rack>(rack: &mut R) -> Option<Super> {
    let mut latest = None;
    for slot in 0..32 {
        latest = later_of(latest, super_of(rack, slot));
    }
    latest
}

// The one of the later epoch.
fn later_of(a: Option<Super>, b: Option<Super>) -> Option<Super> {
    match a {
        None => b,
        Some(first) => match b {
            None => Some(first),
            Some(second) => {
                if first.epoch() < second.epoch() {
                    Some(second)
                } else {
                    Some(first)
                }
            }
        },
    }
}

// The superblock of a device.
fn super_of<R: Rack>(rack: &mut R, slot: u8) -> Option<Super>
    requires { slot < 32 }
{
    if rack.attach(slot) == Reply::Gone {
        return None;
    }
    let first = place_of(rack, slot, FIRST_PLACE);
    let second = place_of(rack, slot, SECOND_PLACE);
    newer_of(first, second)
}

// The superblock that a place of an attached device holds.
fn place_of<R: Rack>(rack: &mut R, slot: u8, place: u32) -> Option<Super>
    requires { slot < 32 }
{
    let mut bytes = [0; SECTOR];
    match rack.read(slot, place, &mut bytes) {
        Got::Good => read_super(&bytes),
        Got::Bad | Got::Gone => None,
    }
}

fn report_array(rt: &HostRuntime, latest: &Super) {
    let digits = identity_digits(latest.geometry().id());
    let identity = str::from_utf8(&digits).unwrap_or("");
    let label = latest.label();
    let text = str::from_utf8(label.bytes()).unwrap_or("");
    let numbers = Numbers {
        geometry: latest.geometry(),
    };
    let epoch = latest.epoch();
    let _ = if text.is_empty() {
        eprintln!(rt; "array {identity}: {numbers}, epoch {epoch}")
    } else {
        eprintln!(rt; "array {identity}: {numbers}, epoch {epoch}, label {text}")
    };
}

// Reports a device of the array that is in another slot than its own.
fn report_strange<R: Rack>(rt: &HostRuntime, rack: &mut R, latest: &Super, slot: u8)
    requires { slot < 32 }
{
    if let Some(block) = super_of(rack, slot)
        && is_of(&block, latest)
        && block.slot() != slot
    {
        let own = block.slot();
        report(
            rt,
            Device { slot },
            format_args!("the device of slot {own}"),
        );
    }
}

// Reports a slot whose device is missing or takes no part.
fn report_slot<R: Rack>(rt: &HostRuntime, rack: &mut R, latest: &Super, slot: u8)
    requires { slot < 32 }
{
    let what = match latest.marks()[usize::from(slot)] {
        Mark::Down => "down",
        Mark::Live | Mark::Rebuilding => {
            if is_here(rack, latest, slot) {
                return;
            }
            "missing"
        }
    };
    let _ = match last_live(rack, latest, slot) {
        Some(epoch) => eprintln!(rt; "{what}: slot {slot}, last live in epoch {epoch}"),
        None => eprintln!(rt; "{what}: slot {slot}"),
    };
}

// Whether the device that is meant is in the slot.
fn is_here<R: Rack>(rack: &mut R, latest: &Super, slot: u8) -> bool
    requires { slot < 32 }
{
    match super_of(rack, slot) {
        Some(block) => {
            is_of(&block, latest)
                && block.slot() == slot
                && block.joined() == latest.joins()[usize::from(slot)]
        }
        None => false,
    }
}

// Whether a superblock is of this array.
fn is_of(block: &Super, latest: &Super) -> bool {
    block.geometry().is_same(&latest.geometry())
}

// The last epoch in which a slot was live, by all superblocks of the array.
fn last_live<R: Rack>(rack: &mut R, latest: &Super, slot: u8) -> Option<u64>
    requires { slot < 32 }
{
    let mut last = None;
    for device in 0..32 {
        last = greater(last, live_by(rack, latest, slot, device));
    }
    last
}

// The last epoch in which a slot was live, by the superblocks of a device.
fn live_by<R: Rack>(rack: &mut R, latest: &Super, slot: u8, device: u8) -> Option<u64>
    requires slot { slot < 32 }
    requires device { device < 32 }
{
    if rack.attach(device) == Reply::Gone {
        return None;
    }
    let first = place_of(rack, device, FIRST_PLACE);
    let second = place_of(rack, device, SECOND_PLACE);
    greater(
        epoch_if_live(&first, latest, slot),
        epoch_if_live(&second, latest, slot),
    )
}

// The epoch of a superblock of the array in which a slot is live.
fn epoch_if_live(block: &Option<Super>, latest: &Super, slot: u8) -> Option<u64>
    requires { slot < 32 }
{
    match block {
        Some(block) if is_of(block, latest) && block.marks()[usize::from(slot)] == Mark::Live => {
            Some(block.epoch())
        }
        Some(_) | None => None,
    }
}

fn greater(a: Option<u64>, b: Option<u64>) -> Option<u64> {
    match a {
        None => b,
        Some(first) => match b {
            None => Some(first),
            Some(second) => Some(first.max(second)),
        },
    }
}

// The numbers of a geometry, as `show` prints them.
#[derive(Drop)]
struct Numbers {
    geometry: Geometry,
}

impl fmt::Display for Numbers {
    fn fmt<W: fmt::Write>(&self, f: &mut fmt::Formatter<W>) -> fmt::Result {
        let geometry = &self.geometry;
        let (n, m, r) = (geometry.n(), geometry.m(), geometry.r());
        write!(f, "n {n} m {m} r {r} e")?;
        for l in 0..geometry.classes() {
            let entry = geometry.coverage(l);
            write!(f, " {entry}")?;
        }
        let stripes = geometry.stripes();
        write!(f, " stripes {stripes}")
    }
}
