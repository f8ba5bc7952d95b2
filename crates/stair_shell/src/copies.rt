// Older copies of devices.
use crate::devices::DeviceUse;
use crate::report::{Device, report};
use stair_copies::{Copies, find_copies};
use stair_filerack::{Access, FileRack};
use stair_status::Status;

/// Reports each device of the folder that is an older copy. If there is one, a command that opens the array is refused before it
/// takes any input: it would read the old blocks as the array's.
pub(crate) fn refuse_copies(
    rt: &HostRuntime,
    folder: &str,
    usage: DeviceUse,
) -> Result<(), Status> {
    // `create` itself refuses a device that has a superblock.
    if matches!(usage, DeviceUse::Unused | DeviceUse::Made) {
        return Ok(());
    }
    // A separate rack, so that what it finds is not counted as found by the command.
    let Ok(mut rack) = FileRack::at(rt, rt.alloc(), folder, Access::Reading) else {
        return Err(Status::OutOfMemory);
    };
    let Some(copies) = find_copies(&mut rack) else {
        return Ok(());
    };
    match (usage, report_copies(rt, &copies)) {
        (DeviceUse::Opened, Some(slot)) => Err(Status::Gone(slot)),
        (_, _) => Ok(()),
    }
}

// Reports for each older copy how the array is repaired, and returns the first slot that has one.
fn report_copies(rt: &HostRuntime, copies: &Copies) -> Option<u8> {
    let mut first = None;
    for slot in 0..32u8 {
        if let Some(draw) = copies.draws[usize::from(slot)] {
            report_copy(rt, copies, slot, draw);
            first = first.or(Some(slot));
        }
    }
    first
}

fn report_copy(rt: &HostRuntime, copies: &Copies, slot: u8, draw: u64) {
    let epoch = copies.epoch;
    let what = format_args!("older copy (draw {draw}, epoch {epoch})");
    let device = Device { slot };
    if copies.can_go {
        report(
            rt,
            device,
            format_args!("{what}: take it away, open the array once, then replace {slot}"),
        );
    } else {
        report(rt, device, format_args!("{what}: too many to replace"));
    }
}
