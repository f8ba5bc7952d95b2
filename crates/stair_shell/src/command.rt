ghost use Rattle.std.specs.Prelude.{◌≡◌, ◌<◌};

use crate::after::report_after;
use crate::call::{Manner, TopCall, call, limits_of};
use crate::copies::refuse_copies;
use crate::devices::{DeviceUse, ahead_of, measure_of, report_reason, use_of};
use crate::folder::{InUse, lock_folder, look_at_folder};
use stair_conf::{Job, WordsFault};
use stair_filerack::{Access, FileRack};
use stair_rack::Counts;
use stair_status::Status;
use std::io::IsTerminal;
use std::sync::ledger::{Blank, Ledger};
use std::{env, io};

/// What the command line says.
#[derive(Drop)]
struct Words {
    folder: String,
    command: Vec<String>,
}

/// Why no call was made.
#[derive(Clone, Copy, Debug, Drop)]
pub enum Refusal {
    /// The cause that this status names.
    Status(Status),
    /// Another program has locked the folder, which was reported.
    InUse,
}

impl From<Status> for Refusal {
    fn from(status: Status) -> Refusal {
        Refusal::Status(status)
    }
}

impl From<InUse> for Refusal {
    fn from(_: InUse) -> Refusal {
        Refusal::InUse
    }
}

/// Returns the folder and the arguments after it. An argument that is not UTF-8 text, or an empty folder, is a faulty command
/// line: then there is no command.
fn read_words(rt: &HostRuntime) -> Result<Words, Status> {
    let mut words = match env::args(rt) {
        Ok(words) => words,
        Err(error) if error.kind() == io::ErrorKind::OutOfMemory => return Err(Status::OutOfMemory),
        Err(_) => return Err(Status::Usage),
    };
    let _program = words.next();
    let folder = words.next().unwrap_or(String::new(rt.alloc()));
    if folder.is_empty() {
        let command = Vec::new(rt.alloc());
        return Ok(Words { folder, command });
    }
    match words.collect(rt.alloc()) {
        Ok(command) => Ok(Words { folder, command }),
        Err(_) => Err(Status::OutOfMemory),
    }
}

/// The result of a command.
#[derive(Debug, Drop)]
pub struct Outcome {
    pub ended: Result<Status, Refusal>,
    /// How many events of each kind were reported, of a command whose events are counted on standard error.
    pub events: Option<Counts>,
}

/// Runs the command line by this call, with a counter on this ledger.
pub fn run<T: TopCall, L: Ledger>(rt: &HostRuntime, top: &T, blank: Blank) -> Outcome
    requires name { blank.name ≡ L.name }
    requires parts { blank.parts ≡ L.parts }
    requires some { 0 < L.parts }
{
    let words = match read_words(rt) {
        Ok(words) => words,
        Err(status) => {
            return Outcome {
                ended: Err(Refusal::Status(status)),
                events: None,
            };
        }
    };
    let job = stair_conf::read_words(rt.alloc(), &words.command);
    // Without the job it is not known how its devices are to be opened.
    if matches!(job, Err(WordsFault::Memory)) {
        return Outcome {
            ended: Err(Refusal::Status(Status::OutOfMemory)),
            events: None,
        };
    }
    let mut counts = Counts {
        fenced: 0,
        repaired: 0,
        admitted: 0,
        promoted: 0,
    };
    let ended = run_words::<T, L>(rt, top, &words, &job, blank, &mut counts);
    let events = matches!(job, Ok(Job::Run | Job::Guard { .. })).then_some(counts);
    Outcome { ended, events }
}

/// Runs these arguments. A command that writes locks the folder exclusively. It begins only if no device of the folder is
/// refused for a reason of the caller's, since a device that is gone in a call is down from then on.
fn run_words<T: TopCall, L: Ledger>(
    rt: &HostRuntime,
    top: &T,
    words: &Words,
    job: &Result<Job, WordsFault>,
    blank: Blank,
    counts: &mut Counts,
) -> Result<Status, Refusal>
    requires name { blank.name ≡ L.name }
    requires parts { blank.parts ≡ L.parts }
    requires some { 0 < L.parts }
{
    let manner = manner_of(rt, job);
    let folder = words.folder.as_str();
    let limits = match job {
        Ok(job) => limits_of(job),
        Err(_) => None,
    };
    let _lock = match manner.usage {
        DeviceUse::Made | DeviceUse::Opened => lock_folder(rt, folder)?,
        DeviceUse::Shown => {
            look_at_folder(rt, folder);
            None
        }
        DeviceUse::Unused => None,
    };
    let access = manner.usage.access();
    let Ok(mut rack) = FileRack::at(rt, rt.alloc(), folder, access) else {
        return Ok(Status::OutOfMemory);
    };
    if access == Access::Writing
        && let Err(refused) = rack.probe()
    {
        report_reason(rt, &refused);
        return Ok(Status::Gone(refused.slot));
    }
    refuse_copies(rt, folder, manner.usage)?;
    let called = call::<T, L>(rt, top, rack, manner, limits, &words.command, blank, counts);
    let Ok(called) = called else {
        return Ok(Status::OutOfMemory);
    };
    report_after(rt, folder, job, manner.usage, &called);
    Ok(called.status)
}

// Returns how the call of these arguments is made. Arguments that are no command look at no device.
fn manner_of(rt: &HostRuntime, job: &Result<Job, WordsFault>) -> Manner {
    match job {
        Ok(job) => Manner {
            usage: use_of(job),
            measure: if rt.stderr().is_terminal() {
                measure_of(rt, job)
            } else {
                None
            },
            ahead: ahead_of(job),
        },
        Err(_) => Manner {
            usage: DeviceUse::Unused,
            measure: None,
            ahead: 0,
        },
    }
}
