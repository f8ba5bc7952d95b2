//! `stair FOLDER COMMAND ..`: runs a command over standard input and output and the folder's image files.
#![tactic(auto)]

use stair_engine::stair;
use stair_gf::Steps;
use stair_rack::{Counts, Rack, Sink, Source, Watcher};
use stair_shell::{Outcome, Refusal, TopCall, report_fault, run};
use stair_status::Status;
use std::alloc::Global;
use std::fs::File;
use std::marker::Brand;
use std::process::ExitCode;
use std::sync::ledger::{Blank, Ledger};
use std::{fs, io};

/// The exit status if another program has locked the folder: EX_TEMPFAIL, after which scripts and mailers try again.
const IN_USE: u8 = 75;

/// The array program.
struct Engine;

impl TopCall for Engine {
    fn answer<R: Rack, S: Source, K: Sink, L: Ledger>(
        &self,
        alloc: Global,
        words: &[String],
        rack: &mut R,
        input: &mut S,
        output: &mut K,
        watchers: &mut Vec<Box<dyn Watcher>>,
        steps: &mut Steps<L>,
    ) -> Status {
        stair(alloc, words, rack, input, output, watchers, steps)
    }
}

/// Takes the numbers of those standard streams that are closed, so that no image is opened on one of them and written to as
/// output. Reads and writes of a directory fail, so a closed stream stays one that fails.
fn hold_streams(rt: &HostRuntime) -> io::Result<[File; 3]> {
    Ok([fs::open(rt, "/")?, fs::open(rt, "/")?, fs::open(rt, "/")?])
}

/// Prints the status, and returns its code.
fn end(rt: &HostRuntime, status: Status) -> ExitCode {
    if status != Status::Done {
        // If standard error can't be written, the exit status still has the cause.
        let _ = eprintln!(rt; "{status}");
    }
    ExitCode::from(status.code())
}

/// Prints how many events of each kind there were.
fn tell_counts(rt: &HostRuntime, events: Counts) {
    let Counts {
        fenced,
        repaired,
        admitted,
        promoted,
    } = events;
    let _ = eprintln!(rt;
        "events: fenced {fenced} repaired {repaired} admitted {admitted} promoted {promoted}"
    );
}

fn main(rt: HostRuntime) -> ExitCode {
    // They are held until the end. If the directory can't be opened nothing is done, as if the input failed.
    let streams = hold_streams(&rt);
    if let Err(error) = &streams {
        report_fault(&rt, "/", *error);
        return end(&rt, Status::InputFault);
    }
    let Outcome { ended, events } = run::<Engine, Brand>(&rt, &Engine, Blank::new(1));
    let code = match ended {
        Ok(status) | Err(Refusal::Status(status)) => end(&rt, status),
        Err(Refusal::InUse) => ExitCode::from(IN_USE),
    };
    if let Some(events) = events {
        tell_counts(&rt, events);
    }
    code
}
