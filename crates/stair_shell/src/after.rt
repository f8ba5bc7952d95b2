// What is reported of a call after it, before its status.
use crate::call::Called;
use crate::devices::{DeviceUse, report_reasons};
use crate::folder::report_near_names;
use crate::limits::{numbers_of, report_large, report_limit};
use crate::missing::report_missing;
use crate::sizes::report_sizes;
use crate::streams::report_stream;
use stair_base::Geometry;
use stair_conf::{Job, WordsFault};
use stair_filerack::{Access, FileRack};
use stair_status::Status;

/// Reports why each device was gone, how many of its sectors are bad, and any other cause of the call's exit status.
pub(crate) fn report_after(
    rt: &HostRuntime,
    folder: &str,
    job: &Result<Job, WordsFault>,
    usage: DeviceUse,
    called: &Called<'_>,
) {
    report_reasons(rt, &called.rack);
    called.bad.report(rt);
    if usage != DeviceUse::Unused {
        report_devices(rt, folder, called);
    }
    report_stream(rt, called.status, called.input, called.output);
    if let (Ok(job), Status::Limit(limit)) = (job, called.status) {
        report_broken(rt, job, limit, called);
    }
}

// Reports what is wrong with the files of the folder, and if no array can be opened, which one is there.
fn report_devices(rt: &HostRuntime, folder: &str, called: &Called<'_>) {
    let status = called.status;
    let found = if matches!(status, Status::NoArray | Status::TooFew(_)) {
        report_missing_in(rt, folder)
    } else {
        called.geometry
    };
    report_sizes(rt, folder, status, &found, &called.bad);
    if matches!(
        status,
        Status::Gone(_) | Status::NoArray | Status::TooFew(_)
    ) {
        report_near_names(rt, folder);
    }
}

// A new rack, since the call's rack has devices that are gone.
fn report_missing_in(rt: &HostRuntime, folder: &str) -> Option<Geometry> {
    let mut rack = FileRack::at(rt, rt.alloc(), folder, Access::Reading).ok()?;
    report_missing(rt, &mut rack)
}

// Reports which limit a geometry breaks, and if it is that of an array, how it gets more stripes.
fn report_broken(rt: &HostRuntime, job: &Job, limit: u8, called: &Called<'_>) {
    if let Some(given) = numbers_of(job).or(called.given) {
        report_limit(rt, limit, &given);
    }
    if limit == 8 && matches!(job, Job::Create) {
        report_large(rt);
    }
}
