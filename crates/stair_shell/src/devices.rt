// What the program does about devices apart from the call: whether they can be opened, and why they were gone.
use crate::progress::{Measure, Span};
use crate::report::{Device, report};
use stair_conf::Job;
use stair_filerack::{Access, FileRack, Refused};
use std::fs;

/// What a command does with the devices of its folder.
#[derive(Clone, Copy, Debug, PartialEq, Eq, Drop)]
pub(crate) enum DeviceUse {
    /// It looks at none.
    Unused,
    /// It makes an array of them.
    Made,
    /// It looks for an array, and writes nothing.
    Shown,
    /// It opens an array, which may write, also for a read.
    Opened,
}

impl DeviceUse {
    /// What the image files are opened for.
    pub(crate) fn access(self) -> Access {
        match self {
            DeviceUse::Made | DeviceUse::Opened => Access::Writing,
            DeviceUse::Unused | DeviceUse::Shown => Access::Reading,
        }
    }
}

/// Returns what a command does with the devices of its folder.
pub(crate) fn use_of(job: &Job) -> DeviceUse {
    match job {
        Job::OneStripe { .. } | Job::Report | Job::Plan { .. } => DeviceUse::Unused,
        Job::Create => DeviceUse::Made,
        Job::Show => DeviceUse::Shown,
        Job::Read { .. }
        | Job::Write { .. }
        | Job::Scrub
        | Job::Replace { .. }
        | Job::Rebuild
        | Job::Freeze
        | Job::Thaw
        | Job::Label { .. }
        | Job::Run
        | Job::Exercise { .. }
        | Job::Guard { .. }
        | Job::Serve
        | Job::Volume(_) => DeviceUse::Opened,
    }
}

/// Returns how many bytes of its input may be read ahead. A text of lines is taken byte by byte. A command reads no input that it
/// doesn't take. A client's messages are taken header by header, and their data at once.
pub(crate) fn ahead_of(job: &Job) -> usize {
    match job {
        Job::Run | Job::Guard { .. } | Job::Report => 64 * 1024,
        _ => 0,
    }
}

/// Returns what a terminal measures the progress of a command by. A session of `serve` shows nothing, since it may run in the
/// background of a shell. The length of a script is known if it is a file.
pub(crate) fn measure_of(rt: &HostRuntime, job: &Job) -> Option<Measure> {
    match job {
        Job::Serve => None,
        Job::Create => Some(Measure::StripesWritten(Span::Whole)),
        Job::Scrub | Job::Replace { .. } | Job::Rebuild => Some(Measure::StripesRead(Span::Whole)),
        Job::Read { block, count } => Some(Measure::StripesRead(blocks(*block, *count))),
        Job::Write { block, count } => Some(Measure::StripesWritten(blocks(*block, *count))),
        Job::Run | Job::Guard { .. } => Some(script_length(rt).map_or(
            Measure::Sectors,
            Measure::Script,
        )),
        Job::OneStripe { .. }
        | Job::Show
        | Job::Freeze
        | Job::Thaw
        | Job::Label { .. }
        | Job::Exercise { .. }
        | Job::Report
        | Job::Volume(_)
        | Job::Plan { .. } => Some(Measure::Sectors),
    }
}

fn blocks(block: u64, count: u64) -> Span {
    Span::Blocks { block, count }
}

// The length of standard input, if it is a file.
fn script_length(rt: &HostRuntime) -> Option<u64> {
    let metadata = fs::metadata(rt, "/dev/stdin").ok()?;
    metadata.is_file().then_some(metadata.len())
}

/// Reports for each slot the first reason for which it was gone.
pub(crate) fn report_reasons(rt: &HostRuntime, rack: &FileRack<&HostRuntime>) {
    for slot in 0..32 {
        if let Some(reason) = rack.reason(slot) {
            report_reason(rt, &Refused { slot, reason });
        }
    }
}

/// Reports why a device was gone or can't be opened.
pub(crate) fn report_reason(rt: &HostRuntime, refused: &Refused) {
    report(rt, Device { slot: refused.slot }, refused.reason);
}
