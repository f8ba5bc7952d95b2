//! The top call of the array program: [`stair`] does one command line.
#![tactic(auto)]

mod blocks;
mod cells;
mod check;
mod create;
mod encode;
mod exercise;
pub mod laws;
mod line;
mod lines;
mod map;
mod open;
mod planning;
mod read;
mod rebuild;
mod replace;
mod restore;
mod script;
mod scrub;
mod serve;
mod show;
mod stamp;
mod task;
mod volumes;
mod write;

ghost use Rattle.std.specs.Prelude.{◌≡◌, ℕ, IsTrue, List, map, string_bytes};
ghost use Rattle.stair_conf.specs.Words.{IsCommandLine, Spells};
ghost use Rattle.stair_conf.specs.declared.job.Job.{Job as Jobs};
ghost use Rattle.stair_conf.specs.declared.job.Job.TheVariants.{Create, Guard, Scrub, Serve, Volume};
ghost use Rattle.stair_conf.specs.declared.job.VolumeJob.{VolumeJob as VolumeJobs};
ghost use Rattle.stair_conf.specs.declared.job.VolumeJob.TheVariants.{Read};
ghost use Rattle.stair_invariant.specs.Returning.{AnyReturns, Returning};
ghost use Rattle.stair_engine.specs.Answered.{AnswersClient};
ghost use Rattle.stair_engine.specs.Bounds.{BoundsDraws};
ghost use Rattle.stair_engine.specs.Changed.{ChangesVolumes, ReadsAlike};
ghost use Rattle.stair_engine.specs.Complete.{IsComplete, IsCompleteWithReinsertion};
ghost use Rattle.stair_engine.specs.Counted.{TellsCount};
ghost use Rattle.stair_engine.specs.Create.{IsOnceMade, MakesArray, SparesArrays};
ghost use Rattle.stair_monitor.specs.Reports.{status_of as status_of_report};
ghost use Rattle.stair_command.specs.Fault.{status_of};
ghost use Rattle.stair_engine.specs.Halts.{IsGuarded};
ghost use Rattle.stair_engine.specs.Jobs.{IsMade, MayWrite, NotSpelled};
ghost use Rattle.stair_engine.specs.Mended.{IsMended};
ghost use Rattle.stair_command.specs.Devices.{ExecutesWhole, device_view};
ghost use Rattle.stair_command.specs.Headline.{RefinesProgram};
ghost use Rattle.stair_command.specs.Executes.{Executes};
ghost use Rattle.stair_command.specs.Outside.{outside, sink_view, views};
ghost use Rattle.stair_command.specs.Program.{Over};
ghost use Rattle.stair_engine.specs.Programs.{job_program, program_of, stripe_program};
ghost use Rattle.stair_command.specs.Rack.{rack_view};
ghost use Rattle.stair_engine.specs.Stands.{ArrayStands};
ghost use Rattle.stair_watch.specs.WatcherList.{AllStay};

use check::check;
use create::create;
use encode::encode;
use exercise::exercise;
use planning::tell_costs;
use read::read;
use rebuild::rebuild;
use replace::replace;
use restore::restore;
use script::run_script;
use scrub::scrub;
use serve::serve;
use show::show;
use stair_base::Geometry;
use stair_command::Fault;
pub use stair_command::Status;
use stair_conf::{Job, StripeCommand, WordsFault, read_words};
use stair_gf::Steps;
use stair_monitor::{ReportFault, report};
use stair_rack::{Rack, Sink, Source, Watcher};
use stamp::{freeze, label, thaw};
use std::alloc::Global;
use std::sync::ledger::Ledger;
use task::one_stripe;
use volumes::volumes;
use write::write;

/// Does the command of a command line over the input, the output and the devices of the rack, and returns its status.
///
/// `docs/reference.md` has what each command takes, does and writes, and when each status comes. In short:
///
/// - `check`, `stripe` and `restore` work on one stripe of n·r cells of 512 bytes. They make no call on the rack.
/// - `create` takes a geometry text of at most 4,096 bytes and makes an array of it ([`stair_array::create`]).
/// - `show` looks for an array ([`stair_member::survey`]). It takes no input and changes nothing on a device.
/// - All commands below but `report` and `plan` look for an array and open it ([`stair_array::Array`]).
/// - `read` writes blocks of the array to the output, each before it reads the next. `write` takes blocks and writes
///   them: the whole blocks of a stripe that came, as one step, before it takes more.
/// - `scrub` scrubs all stripes. `replace` admits a device and rebuilds it. `rebuild` rebuilds to its end whatever is
///   being rebuilt. `freeze`, `thaw` and `label` make an epoch with another frozen mark or label. These six use the
///   steps of `stair_mend`. They take no input, and write a line once all is done.
/// - `run` does the lines of a script in order ([`stair_script::read_line`]): each once its end came, or the end of the
///   input. Its reply is written before more is taken.
/// - `guard` is `run` that is halted after the first line at which a watcher left, or before its first line if one left
///   as the array was opened. The caller chooses the watchers, whatever the numbers of the command are.
/// - `exercise` takes the steps that a number gives. It takes no input, and writes a line once all is done.
/// - `report` counts the events that the lines of its input spell ([`stair_monitor::report`]). It makes no call on the
///   rack.
/// - `serve` first takes memory for all that a client sends at once, then opens the array. It serves one client of the
///   protocol NBD over input and output ([`stair_nbd::session`]), as its block device.
/// - `vinit`, `vmake`, `vdrop`, `vlist`, `vread` and `vwrite` work on named volumes ([`stair_volume::volume`]), whose
///   table is block 0. Of these only `vwrite` takes its input.
/// - `plan` writes what the code of a geometry costs ([`stair_plan::plan`]). It makes no call on the rack.
///
/// The words are tested first, then the limits of the geometry of a stripe, then the input. What is refused before the
/// input is taken leaves input, output and counter as they were, and nothing is written to the output before the answer
/// is known.
///
/// What holds after an error:
///
/// - After `InputFault` the output is as it was. After `OutputFault` a part of the output was written; if `create`
///   returns it, there is an array.
/// - Output that `read`, `run`, `guard`, `serve`, `vlist` and `vread` wrote before the error stays written.
/// - Each block that `write` or `vwrite` wrote before an error, or before an input that ends or fails, stays written.
///   Steps of the other commands before the error stay done.
/// - If a step is refused with `TooFew` or `EpochsSpent`, its blocks are old, new, or in doubt.
///
/// The counter rises by exactly the steps of the encoder that METHOD of `stripe` chooses. No other command counts.
///
/// Each event of an array in the steps of the call is reported to the watchers, in order. A watcher that leaves is
/// removed and dropped.
///
/// `OutOfMemory` may come in place of any other answer, if the first word is a command's and no word begins with a
/// hyphen. No device was written then.
pub fn stair<R: Rack, S: Source, K: Sink, L: Ledger>(
    alloc: Global,
    words: &[String],
    rack: &mut R,
    input: &mut S,
    output: &mut K,
    watchers: &mut Vec<Box<dyn Watcher>>,
    steps: &mut Steps<L>,
) -> Status
    // None of the watchers has left.
    requires { AllStay hears watchers.old.items }

    // The call refines the program of the words, over source, sink, counter, rack and watchers.
    ensures refines { RefinesProgram (device_view (rack_view R.Rack) hears) (views S.Source K.Sink)
        (program_of (map string_bytes words.now)) (Over result)
        (outside input.old output.old steps.old) (outside input.new output.new steps.new)
        rack.old rack.new watchers.old.items watchers.new.items }

    // None of the remaining watchers has left: they can be given to the next call.
    ensures stay { AllStay hears watchers.new.items }

    // Out of memory: only if the first word is a command's and no word begins with a hyphen.
    ensures memory { result ≡ Status.OutOfMemory → IsCommandLine (map string_bytes words.now) }

    // On an honest rack `create` made the array of the geometry that the input says, with blocks of zeros. This holds
    // also if only its line could not be written.
    ensures created { IsTrue R.is_honest → Spells (map string_bytes words.now) Create → IsOnceMade result →
        MakesArray (S.left input.old) (R.history rack.old) (R.history rack.new) }

    // On an honest rack `create` overwrites no array. If an array of any geometry is within tolerance before anything
    // is written, and no medium is reinserted, then none is made and no device is written.
    ensures spared { IsTrue R.is_honest → Spells (map string_bytes words.now) Create →
        SparesArrays result (R.history rack.old) (R.history rack.new) }

    // On an honest rack every command that neither makes nor opens an array leaves the array as it was, at every moment
    // and at the end.
    ensures stands { IsTrue R.is_honest → NotSpelled MayWrite (map string_bytes words.now) →
        ArrayStands (R.history rack.old) (R.history rack.new) }

    // If a command can be done, and neither source nor sink fails, the answer is Done or OutOfMemory. `guard` may also
    // be halted, and a command on volumes ends as the volumes and its input allow.
    ensures complete { (job : Jobs) → Spells (map string_bytes words.now) job →
        IsComplete (rack_view R.Rack) (views S.Source K.Sink) job result
        (outside input.old output.old steps.old) (outside input.new output.new steps.new)
        rack.old rack.new }

    // `guard` is halted exactly after the first line at which a watcher left, once the line's steps were done and its
    // reply was written. Up to there it does what `run` does. If no watcher left, each that reports its remaining quota
    // is waiting for more.
    ensures halted { (events fences : ℕ) → Spells (map string_bytes words.now) (Guard events fences) →
        IsGuarded (device_view (rack_view R.Rack) hears) (views S.Source K.Sink) (map string_bytes words.now) result
        (outside input.old output.old steps.old) (outside input.new output.new steps.new)
        rack.old rack.new watchers.old.items watchers.new.items }

    // The same holds if media that were pulled are reinserted, along each trace of the call: if the array serves along
    // it, with failures within tolerance.
    ensures complete_with_reinsertion { (job : Jobs) → Spells (map string_bytes words.now) job →
        IsCompleteWithReinsertion AnyReturns
        (device_view (rack_view R.Rack) hears) (views S.Source K.Sink) (map string_bytes words.now) job result
        (outside input.old output.old steps.old) (outside input.new output.new steps.new)
        rack.old rack.new watchers.old.items watchers.new.items }

    // `serve` answers no READ with an error of the devices, nor a WRITE unless the array is frozen. This holds along
    // each trace of the call along which the array serves, whether media are reinserted or not.
    ensures answered { Spells (map string_bytes words.now) Serve → (returning : Returning)
        → AnswersClient returning
        (device_view (rack_view R.Rack) hears) (views S.Source K.Sink) (map string_bytes words.now) result
        (outside input.old output.old steps.old) (outside input.new output.new steps.new)
        rack.old rack.new watchers.old.items watchers.new.items }

    // A command on volumes changes what it is to change, and nothing else. At the end of the call, and after a crash at
    // any moment of it, the volumes are those from before or those after; a write may have written some of its blocks,
    // from the first on. Once it is done, they are those after, and `vread` wrote what its volume holds.
    ensures volumes { (job : VolumeJobs) → Spells (map string_bytes words.now) (Volume job) →
        ChangesVolumes job
        (device_view (rack_view R.Rack) hears) (views S.Source K.Sink) (map string_bytes words.now) result
        (outside input.old output.old steps.old) (outside input.new output.new steps.new)
        rack.old rack.new watchers.old.items watchers.new.items }

    // What `vread` writes depends only on its volume: two arrays that hold the same volume are read alike.
    ensures alike { (name : List ℕ) (block count : ℕ) → Spells (map string_bytes words.now) (Volume (Read name block count)) →
        ReadsAlike name block count
        (device_view (rack_view R.Rack) hears) (views S.Source K.Sink) (map string_bytes words.now) result
        (outside input.old output.old steps.old) (outside input.new output.new steps.new)
        rack.old rack.new watchers.old.items watchers.new.items }

    // The rack is honest and an array in a state, stays within tolerance to the end, and no medium is reinserted. Then
    // the draws of its superblocks rise by at most 100, and five for each replacement in the call. This holds at every
    // moment of the call, and after a crash then.
    ensures bounded { BoundsDraws
        (device_view (rack_view R.Rack) hears) (views S.Source K.Sink) (map string_bytes words.now) result
        (outside input.old output.old steps.old) (outside input.new output.new steps.new)
        rack.old rack.new watchers.old.items watchers.new.items }

    // The rack is honest and an array in a state, stays within tolerance to the end, and no medium is reinserted. Once
    // `scrub` is done, each cell of a live slot was good at some moment of the call. Once `replace` is done, each
    // sector of its slot was. Once one of these or `rebuild` is done, each cell was of a slot that is live and was not
    // as the array was found.
    ensures mended { (job : Jobs) → Spells (map string_bytes words.now) job → IsTrue R.is_honest →
        IsMended job result (R.history rack.old) (R.history rack.new) }

    // On such a rack, if it is left alone meanwhile and no redo is left on it, the line of `scrub` has the exact number
    // of stripe cells that could not be read at first, on the slots that were live.
    ensures counted { IsTrue R.is_honest → Spells (map string_bytes words.now) Scrub →
        TellsCount (sink_view K.Sink) result output.old output.new
        (R.history rack.old) (R.history rack.new) }
{
    match read_words(alloc, words) {
        Ok(job) => work(alloc, job, rack, input, output, watchers, steps),
        Err(WordsFault::Usage) => Status::Usage,
        Err(WordsFault::Memory) => Status::OutOfMemory,
    }
}

/// Does the job. A broken limit of a stripe's geometry is reported before memory is asked for.
fn work<R: Rack, S: Source, K: Sink, L: Ledger>(
    alloc: Global,
    job: Job,
    rack: &mut R,
    input: &mut S,
    output: &mut K,
    watchers: &mut Vec<Box<dyn Watcher>>,
    steps: &mut Steps<L>,
) -> Status
    requires some { IsMade job }
    requires stay { AllStay hears watchers.old.items }
    ensures means { ExecutesWhole
        (device_view (rack_view R.Rack) hears) (views S.Source K.Sink) (job_program job) (Over result)
        (outside input.old output.old steps.old) (outside input.new output.new steps.new)
        rack.old rack.new watchers.old.items watchers.new.items }
    ensures stay { AllStay hears watchers.new.items }
{
    match job {
        Job::OneStripe {
            command,
            n,
            m,
            r,
            e,
        } => match one_stripe(n, m, r, &e) {
            Ok(geometry) => {
                let done = run(alloc, command, &geometry, input, output, steps);
                done.unwrap_or_else(Status::from)
            }
            Err(fault) => Status::Limit(fault.limit),
        },
        Job::Create => create(alloc, rack, input, output).unwrap_or_else(Status::from),
        Job::Show => show(rack, output).unwrap_or_else(Status::from),
        Job::Read { block, count } => {
            let done = read(alloc, block, count, rack, output, watchers);
            done.unwrap_or_else(Status::from)
        }
        Job::Write { block, count } => {
            let done = write(alloc, block, count, rack, input, output, watchers);
            done.unwrap_or_else(Status::from)
        }
        Job::Scrub => scrub(alloc, rack, output, watchers).unwrap_or_else(Status::from),
        Job::Replace { slot } => {
            let done = replace(alloc, slot, rack, output, watchers);
            done.unwrap_or_else(Status::from)
        }
        Job::Rebuild => rebuild(alloc, rack, output, watchers).unwrap_or_else(Status::from),
        Job::Freeze => freeze(alloc, rack, output, watchers).unwrap_or_else(Status::from),
        Job::Thaw => thaw(alloc, rack, output, watchers).unwrap_or_else(Status::from),
        Job::Label { text } => {
            let done = label(alloc, text, rack, output, watchers);
            done.unwrap_or_else(Status::from)
        }
        Job::Run => {
            let done = run_script(alloc, false, rack, input, output, watchers);
            done.unwrap_or_else(Status::from)
        }
        Job::Exercise { number, count } => {
            let done = exercise(alloc, number, count, rack, output, watchers);
            done.unwrap_or_else(Status::from)
        }
        Job::Guard { .. } => {
            let done = run_script(alloc, true, rack, input, output, watchers);
            done.unwrap_or_else(Status::from)
        }
        Job::Report => reported(report(input, output)),
        Job::Serve => {
            let done = serve(alloc, rack, input, output, watchers);
            done.unwrap_or_else(Status::from)
        }
        Job::Volume(volume) => {
            let done = volumes(alloc, &volume, rack, input, output, watchers);
            done.unwrap_or_else(Status::from)
        }
        Job::Plan { n, m, r, e } => match one_stripe(n, m, r, &e) {
            Ok(geometry) => {
                let done = tell_costs(alloc, &geometry, output);
                done.unwrap_or_else(Status::from)
            }
            Err(fault) => Status::Limit(fault.limit),
        },
    }
}

/// Returns the status of a report.
fn reported(done: Result<(), ReportFault>) -> Status
    ensures { result ≡ status_of_report done }
{
    match done {
        Ok(()) => Status::Done,
        Err(fault) => Status::from(fault),
    }
}

/// Does a command on one stripe of this geometry.
fn run<S: Source, K: Sink, L: Ledger>(
    alloc: Global,
    command: StripeCommand,
    geometry: &Geometry,
    input: &mut S,
    output: &mut K,
    steps: &mut Steps<L>,
) -> Result<Status, Fault>
    ensures { Executes (views S.Source K.Sink)
        (stripe_program command geometry.now) (Over (status_of result))
        (outside input.old output.old steps.old) (outside input.new output.new steps.new) }
{
    match command {
        StripeCommand::Check => check(alloc, geometry, input, output),
        StripeCommand::Encode(method) => encode(alloc, method, geometry, input, output, steps),
        StripeCommand::Restore => restore(alloc, geometry, input, output),
    }
}
