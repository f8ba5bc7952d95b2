// Image files whose lengths are not those of devices.
use crate::report::{Device, report};
use crate::sectors::BadSectors;
use stair_base::Geometry;
use stair_status::Status;
use std::fs;

// How many bytes a sector takes in an image file.
const SEALED_SECTOR: u64 = 544;

/// Reports image files that are too small or end within a sector: the small device of the status, each that has bad sectors, and if no
/// array can be opened all of them.
pub(crate) fn report_sizes(
    rt: &HostRuntime,
    folder: &str,
    status: Status,
    geometry: &Option<Geometry>,
    bad: &BadSectors,
) {
    if let Status::SmallDevice { slot, needs, .. } = status {
        report_size(rt, folder, slot, needs);
        return;
    }
    let any = matches!(status, Status::NoArray | Status::TooFew(_));
    for slot in 0..32 {
        let needs = need_of(geometry, slot);
        if any || bad.has(slot) {
            report_size(rt, folder, slot, needs);
        }
    }
}

// How many sectors an array needs in this slot, as far as it is known.
fn need_of(geometry: &Option<Geometry>, slot: u8) -> u32 {
    match geometry {
        Some(geometry) if slot < geometry.n() => geometry.need(),
        Some(_) | None => 0,
    }
}

fn report_size(rt: &HostRuntime, folder: &str, slot: u8, needs: u32) {
    let device = Device { slot };
    let Some(length) = length_of(rt, folder, device) else {
        return;
    };
    let needed = SEALED_SECTOR * u64::from(needs);
    if length < needed {
        report(
            rt,
            device,
            format_args!("{length} bytes, and the array needs {needed}"),
        );
    } else if length % SEALED_SECTOR != 0 {
        report(
            rt,
            device,
            format_args!("{length} bytes, which is no multiple of {SEALED_SECTOR}"),
        );
    }
}

// Returns the length of an image file, or `None` if there is no file.
fn length_of(rt: &HostRuntime, folder: &str, device: Device) -> Option<u64> {
    let path = format!(in rt.alloc(); "{folder}/{device}").ok()?;
    let metadata = fs::metadata(rt, path.as_str()).ok()?;
    metadata.is_file().then_some(metadata.len())
}
