ghost use Rattle.std.specs.Prelude.{◌≡◌, ◌≢◌, ◌<◌, false, true, length, map, string_bytes, IfOk, IfSome, IsNone, Any, slice_index};
ghost use Rattle.stair_conf.specs.Commands.{HasNoOption};
ghost use Rattle.stair_conf.specs.Words.{Spells, IsCommandLine};
ghost use Rattle.stair_conf.specs.declared.job.Job.{Job};
ghost use Rattle.stair_conf.specs.declared.job.Job.TheVariants.{Guard, OneStripe, Plan};

use crate::commands::{read_counted, read_geometry, read_label, read_slot, read_stripe};
use crate::matches::{Counted, GeometryNumbers};
use crate::volumes::read_volume;
use crate::{Job, StripeCommand, VolumeJob, WordsFault};
use std::alloc::Global;

/// Reads the words of a command: `check N M R E..`, `stripe METHOD N M R E..`, `restore N M R E..` or `plan N M R E..`, with at
/// least one E, `read BLOCK COUNT`, `write BLOCK COUNT`, `replace SLOT`, `label TEXT`, `exercise NUMBER COUNT`,
/// `guard EVENTS FENCES`, `vmake NAME BLOCKS`, `vdrop NAME`, `vread NAME BLOCK COUNT` or `vwrite NAME BLOCK COUNT`, or `create`,
/// `show`, `scrub`, `rebuild`, `freeze`, `thaw`, `run`, `report`, `serve`, `vinit` or `vlist` alone.
///
/// METHOD is `standard`, `up`, `down` or `fewest`. A number is decimal digits with no sign and no leading zero, below 2^64.
/// EVENTS, FENCES and BLOCKS are at least 1. TEXT is 1 to 64 bytes of printable ASCII, the first of which isn't a hyphen, and NAME
/// is the text of a [`crate::Name`]. All other words are `Usage`, unless memory runs out before that is known. Memory is taken only
/// where a command's word comes first and no word begins with a hyphen.
pub fn read_words(alloc: Global, words: &[String]) -> Result<Job, WordsFault>
    ensures ok { IfOk result (λ job. Spells (map string_bytes words.now) job) }
    ensures usage { result ≡ Err WordsFault.Usage
        → (job : Job) → Spells (map string_bytes words.now) job → ⊥ }
    ensures memory { result ≡ Err WordsFault.Memory → IsCommandLine (map string_bytes words.now) }
{
    let [command, ..] = words else {
        return Err(WordsFault::Usage);
    };
    if has_option(words) {
        return Err(WordsFault::Usage);
    }
    if let Some(job) = lone_job(words) {
        return Ok(job);
    }
    match command.as_str() {
        "check" => Ok(one_stripe(StripeCommand::Check, read_geometry(alloc, words)?)),
        "stripe" => {
            let (method, numbers) = read_stripe(alloc, words)?;
            Ok(one_stripe(StripeCommand::Encode(method), numbers))
        }
        "restore" => Ok(one_stripe(StripeCommand::Restore, read_geometry(alloc, words)?)),
        "read" => {
            let Counted { number, count } = read_counted(alloc, words)?;
            Ok(Job::Read {
                block: number,
                count,
            })
        }
        "write" => {
            let Counted { number, count } = read_counted(alloc, words)?;
            Ok(Job::Write {
                block: number,
                count,
            })
        }
        "replace" => Ok(Job::Replace {
            slot: read_slot(alloc, words)?,
        }),
        "label" => Ok(Job::Label {
            text: read_label(alloc, words)?,
        }),
        "exercise" => {
            let Counted { number, count } = read_counted(alloc, words)?;
            Ok(Job::Exercise { number, count })
        }
        "guard" => limits(read_counted(alloc, words)?),
        "plan" => Ok(plan(read_geometry(alloc, words)?)),
        _ => Ok(Job::Volume(read_volume(alloc, words)?)),
    }
}

// The job of a command on one stripe.
fn one_stripe(command: StripeCommand, numbers: GeometryNumbers) -> Job
    ensures { result ≡ OneStripe command numbers.n numbers.m numbers.r numbers.e }
{
    let GeometryNumbers { n, m, r, e } = numbers;
    Job::OneStripe {
        command,
        n,
        m,
        r,
        e,
    }
}

// The job of a geometry's costs.
fn plan(numbers: GeometryNumbers) -> Job
    ensures { result ≡ Plan numbers.n numbers.m numbers.r numbers.e }
{
    let GeometryNumbers { n, m, r, e } = numbers;
    Job::Plan { n, m, r, e }
}

// The job of a watcher's limits, where each is at least 1.
fn limits(counted: Counted) -> Result<Job, WordsFault>
    ensures ok { IfOk result (λ job. (job ≡ Guard counted.number counted.count)
        × (0 < counted.number) × (0 < counted.count)) }
    ensures usage { result ≡ Err WordsFault.Usage → 0 < counted.number → 0 < counted.count → ⊥ }
    ensures memory { result ≢ Err WordsFault.Memory }
{
    let Counted {
        number: events,
        count: fences,
    } = counted;
    if events > 0 && fences > 0 {
        Ok(Job::Guard { events, fences })
    } else {
        Err(WordsFault::Usage)
    }
}

// The job of a command without operands, where its word is the only one.
fn lone_job(words: &[String]) -> Option<Job>
    ensures some { IfSome result (λ job. Spells (map string_bytes words.now) job) }
    ensures none { IsNone result → length words.now ≡ 1
        → (job : Job) → Spells (map string_bytes words.now) job → ⊥ }
{
    let [command] = words else {
        return None;
    };
    match command.as_str() {
        "create" => Some(Job::Create),
        "show" => Some(Job::Show),
        "scrub" => Some(Job::Scrub),
        "rebuild" => Some(Job::Rebuild),
        "freeze" => Some(Job::Freeze),
        "thaw" => Some(Job::Thaw),
        "run" => Some(Job::Run),
        "report" => Some(Job::Report),
        "serve" => Some(Job::Serve),
        "vinit" => Some(Job::Volume(VolumeJob::Ready)),
        "vlist" => Some(Job::Volume(VolumeJob::List)),
        _ => None,
    }
}

// Whether a word begins with a hyphen, so that clap would read it as an option.
fn has_option(words: &[String]) -> bool
    ensures yes { result ≡ true → Any (λ word. slice_index word 0 ≡ 45)
        (map string_bytes words.now) }
    ensures no { result ≡ false → HasNoOption (map string_bytes words.now) }
{
    for word in words {
        if matches!(word.as_bytes(), [b'-', ..]) {
            return true;
        }
    }
    false
}
