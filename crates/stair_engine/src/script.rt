ghost use Rattle.std.specs.Prelude.{◌≡◌, ◌<◌, ◌≤◌, ℕ, false, true, IfErr, IfOk};
ghost use Rattle.stair_array.specs.Promise.{Opened};
ghost use Rattle.stair_engine.specs.Scripts.{all_lines, last_line, script_program};
ghost use Rattle.stair_command.specs.Devices.{ExecutesWhole, ExecutesWith, device_view, devices};
ghost use Rattle.stair_command.specs.Fault.{status_of};
ghost use Rattle.stair_command.specs.Outside.{outside, sink_alone, source_view, views};
ghost use Rattle.stair_command.specs.Program.{Over};
ghost use Rattle.stair_command.specs.Rack.{rack_view};
ghost use Rattle.stair_command.specs.Texts.{FailsByte, TakesByte};
ghost use Rattle.stair_watch.specs.WatcherList.{AllStay};

use crate::lines::{put_reply, take_line};
use crate::open::session;
use stair_base::StripeCode;
use stair_command::{Fault, Filled, ObservedArray, Status, take_at_least};
use stair_rack::{Rack, Sink, Source, Watcher};
use stair_script::{MAX_SCRIPT_LINE, SCRIPT_LIMIT};
use stair_watch::Line;
use std::alloc::Global;

/// Opens the array of the rack, and does the lines of a script, which is the input.
///
/// The input is taken byte by byte: the reply to a line is written before anything after the line is taken. A guarded
/// script is halted after the first line at which a watcher left, or before its first line if one left as the array was
/// opened.
pub(crate) fn run_script<R: Rack, S: Source, K: Sink>(
    alloc: Global,
    guarded: bool,
    rack: &mut R,
    input: &mut S,
    output: &mut K,
    watchers: &mut Vec<Box<dyn Watcher>>,
) -> Result<Status, Fault>
    requires stay { AllStay hears watchers.old.items }
    ensures means { (counter : ℕ) → ExecutesWhole
        (device_view (rack_view R.Rack) hears) (views S.Source K.Sink)
        (script_program guarded) (Over (status_of result))
        (outside input.old output.old counter) (outside input.new output.new counter)
        rack.old rack.new watchers.old.items watchers.new.items }
    ensures stay { AllStay hears watchers.new.items }
{
    let before = watchers.len();
    let mut array = session(alloc, rack, watchers)?;
    if is_halted(guarded, before, watchers.len()) {
        return Ok(Status::Halted(0));
    }
    do_lines(&mut array, guarded, rack, input, output, watchers)
}

// Does each line once its end came.
fn do_lines<C: StripeCode, R: Rack, S: Source, K: Sink>(
    array: &mut ObservedArray<C>,
    guarded: bool,
    rack: &mut R,
    input: &mut S,
    output: &mut K,
    watchers: &mut Vec<Box<dyn Watcher>>,
) -> Result<Status, Fault>
    requires stay { AllStay hears watchers.old.items }
    ensures means { (counter : ℕ) → ExecutesWith
        (device_view (rack_view R.Rack) hears) (views S.Source K.Sink)
        (all_lines guarded array.old.member.array.geometry) (Over (status_of result))
        (outside input.old output.old counter) (outside input.new output.new counter)
        (devices rack.old (Opened array.old) watchers.old.items)
        (devices rack.new (Opened array.new) watchers.new.items) }
    ensures stay { AllStay hears watchers.new.items }
{
    let mut line = Line::new();
    let mut number = 1;
    for _ in 0..SCRIPT_LIMIT {
        let Some(byte) = next_byte(input)? else {
            return do_last(array, guarded, line.bytes(), number, rack, output, watchers);
        };
        if byte == b'\n' {
            let before = watchers.len();
            let reply = take_line(array, line.bytes(), number, rack, watchers)?;
            put_reply(output, &reply)?;
            if is_halted(guarded, before, watchers.len()) {
                return Ok(Status::Halted(number));
            }
            line.clear();
            number += 1;
        } else if line.bytes().len() < MAX_SCRIPT_LINE {
            line.push(&[byte]);
        } else {
            return Err(Fault::BadLine(number));
        }
    }
    if let Some(_) = next_byte(input)? {
        return Err(Fault::Length {
            needed: SCRIPT_LIMIT,
            took: SCRIPT_LIMIT + 1,
        });
    }
    do_last(array, guarded, line.bytes(), number, rack, output, watchers)
}

// Does the text after the last end of a line. It is a line only if it is not empty.
fn do_last<C: StripeCode, R: Rack, K: Sink>(
    array: &mut ObservedArray<C>,
    guarded: bool,
    line: &[u8],
    number: u64,
    rack: &mut R,
    output: &mut K,
    watchers: &mut Vec<Box<dyn Watcher>>,
) -> Result<Status, Fault>
    requires stay { AllStay hears watchers.old.items }
    ensures means { (counter : ℕ) → ExecutesWith
        (device_view (rack_view R.Rack) hears)
        (sink_alone K.Sink)
        (last_line guarded array.old.member.array.geometry number line.now) (Over (status_of result))
        (outside tt output.old counter) (outside tt output.new counter)
        (devices rack.old (Opened array.old) watchers.old.items)
        (devices rack.new (Opened array.new) watchers.new.items) }
    ensures stay { AllStay hears watchers.new.items }
{
    if line.is_empty() {
        return Ok(Status::Done);
    }
    let before = watchers.len();
    let reply = take_line(array, line, number, rack, watchers)?;
    put_reply(output, &reply)?;
    if is_halted(guarded, before, watchers.len()) {
        return Ok(Status::Halted(number));
    }
    Ok(Status::Done)
}

// Returns whether a script is halted, by the number of watchers before and the number that are left.
fn is_halted(guarded: bool, before: usize, left: usize) -> bool
    ensures halted { result ≡ true → (guarded ≡ true) × (left < before) }
    ensures goes_on { result ≡ false → guarded ≡ true → before ≤ left }
{
    guarded && left < before
}

// Takes the next byte of the input, unless that has ended.
fn next_byte<S: Source>(input: &mut S) -> Result<Option<u8>, Fault>
    ensures taken { IfOk result (λ byte. TakesByte (source_view S.Source)
        byte input.old input.new) }
    ensures failed { IfErr result (λ fault. FailsByte (source_view S.Source)
        fault input.old input.new) }
{
    let mut piece = [0];
    match take_at_least(input, 1, &mut piece) {
        Filled::Enough(_) => Ok(Some(piece[0])),
        Filled::Short(_) => Ok(None),
        Filled::Failed => Err(Fault::Input),
    }
}
