ghost use Rattle.std.specs.Prelude.{◌≡◌, ◌+◌, ◌<◌, ◌≤◌, ℕ, IfErr, IfOk};
ghost use Rattle.stair_array.specs.Promise.{Opened};
ghost use Rattle.stair_engine.specs.declared.exercise.Exercised.{Exercised};
ghost use Rattle.stair_engine.specs.Exercise.{exercise_program, exercised_line as line_of_exercised, exercises, next_number as number_behind, none_exercised, step_one};
ghost use Rattle.stair_command.specs.Comes.{ExecutesOnDevices};
ghost use Rattle.stair_command.specs.Devices.{ExecutesWhole, device_view, devices};
ghost use Rattle.stair_command.specs.Fault.{status_of, status_of_fault};
ghost use Rattle.stair_command.specs.Outside.{outside, sink_alone};
ghost use Rattle.stair_command.specs.Program.{Over, Program};
ghost use Rattle.stair_command.specs.Rack.{rack_view};
ghost use Rattle.stair_watch.specs.WatcherList.{AllStay};

use crate::line::put_line;
use crate::open::session;
use stair_base::{SECTOR, StripeCode};
use stair_command::{Fault, ObservedArray, Status};
use stair_rack::{Rack, Sink, Watcher};
use stair_watch::Line;
use std::alloc::Global;

// No more steps are taken.
const MOST_STEPS: u64 = 1_000_000;

/// How many steps there were of each kind, and the sum of the first bytes that were read, modulo 2^64.
#[derive(Clone, Copy)]
struct Exercised {
    reads: u64,
    writes: u64,
    scrubs: u64,
    sum: u64,
}

/// Opens the array of the rack, and takes so many steps that a number gives.
pub(crate) fn exercise<R: Rack, K: Sink>(
    alloc: Global,
    number: u64,
    steps: u64,
    rack: &mut R,
    output: &mut K,
    watchers: &mut Vec<Box<dyn Watcher>>,
) -> Result<Status, Fault>
    requires stay { AllStay hears watchers.old.items }
    ensures means { (counter : ℕ) → ExecutesWhole
        (device_view (rack_view R.Rack) hears)
        (sink_alone K.Sink)
        (exercise_program number steps) (Over (status_of result))
        (outside tt output.old counter) (outside tt output.new counter)
        rack.old rack.new watchers.old.items watchers.new.items }
    ensures stay { AllStay hears watchers.new.items }
{
    let mut array = session(alloc, rack, watchers)?;
    if steps > MOST_STEPS {
        return Err(Fault::OutOfRange {
            asked: steps,
            limit: MOST_STEPS + 1,
        });
    }
    let came = take_steps(&mut array, number, steps, rack, watchers)?;
    put_line(output, exercised_line(number, steps, came).bytes())
}

// Takes so many steps, by the numbers after this one, and answers what they came to.
fn take_steps<C: StripeCode, R: Rack>(
    array: &mut ObservedArray<C>,
    first: u64,
    steps: u64,
    rack: &mut R,
    watchers: &mut Vec<Box<dyn Watcher>>,
) -> Result<Exercised, Fault>
    requires few { steps ≤ 1000000 }
    requires stay { AllStay hears watchers.old.items }
    ensures done { IfOk result (λ came. (k : Exercised → Program) → ExecutesOnDevices
        (device_view (rack_view R.Rack) hears)
        (exercises array.old.member.array.geometry steps first none_exercised k) (k came)
        (devices rack.old (Opened array.old) watchers.old.items)
        (devices rack.new (Opened array.new) watchers.new.items)) }
    ensures refused { IfErr result (λ fault. (k : Exercised → Program) → ExecutesOnDevices
        (device_view (rack_view R.Rack) hears)
        (exercises array.old.member.array.geometry steps first none_exercised k) (Over (status_of_fault fault))
        (devices rack.old (Opened array.old) watchers.old.items)
        (devices rack.new (Opened array.new) watchers.new.items)) }
    ensures geometry { array.new.member.array.geometry ≡ array.old.member.array.geometry }
    ensures stay { AllStay hears watchers.new.items }
{
    let mut number = first;
    let mut came = Exercised {
        reads: 0,
        writes: 0,
        scrubs: 0,
        sum: 0,
    };
    for _ in 0..steps {
        number = next_number(number);
        let taken = take_step(array, number, came, rack, watchers);
        came = taken?;
    }
    Ok(came)
}

// Takes the step of this number, and answers what all came to then.
fn take_step<C: StripeCode, R: Rack>(
    array: &mut ObservedArray<C>,
    number: u64,
    so_far: Exercised,
    rack: &mut R,
    watchers: &mut Vec<Box<dyn Watcher>>,
) -> Result<Exercised, Fault>
    requires few { so_far.reads + so_far.writes + so_far.scrubs < 1000000 }
    requires stay { AllStay hears watchers.old.items }
    ensures done { IfOk result (λ came. (k : Exercised → Program) → ExecutesOnDevices
        (device_view (rack_view R.Rack) hears)
        (step_one array.old.member.array.geometry number so_far k) (k came)
        (devices rack.old (Opened array.old) watchers.old.items)
        (devices rack.new (Opened array.new) watchers.new.items)) }
    ensures one { IfOk result (λ came. came.reads + came.writes + came.scrubs
        ≡ so_far.reads + so_far.writes + so_far.scrubs + 1) }
    ensures refused { IfErr result (λ fault. (k : Exercised → Program) → ExecutesOnDevices
        (device_view (rack_view R.Rack) hears)
        (step_one array.old.member.array.geometry number so_far k) (Over (status_of_fault fault))
        (devices rack.old (Opened array.old) watchers.old.items)
        (devices rack.new (Opened array.new) watchers.new.items)) }
    ensures geometry { array.new.member.array.geometry ≡ array.old.member.array.geometry }
    ensures stay { AllStay hears watchers.new.items }
{
    let geometry = array.geometry();
    let slots = geometry.n();
    let choice = (number >> 33) / 8;
    let block = choice % geometry.blocks();
    let mut came = so_far;
    match (number >> 33) % 8 {
        0 => {
            let stripe = choice % u64::from(geometry.stripes());
            if let Err(fault) = array.scrub(rack, stripe as u32, watchers) {
                return Err(Fault::Step { fault, slots });
            }
            came.scrubs += 1;
        }
        1..=3 => {
            let mut contents = [0; SECTOR];
            if let Err(fault) = array.read(rack, block, &mut contents, watchers) {
                return Err(Fault::Step { fault, slots });
            }
            came.reads += 1;
            came.sum = came.sum.wrapping_add(u64::from(contents[0]));
        }
        _ => {
            let contents = [(choice % 251) as u8; SECTOR];
            if let Err(fault) = array.write_blocks(rack, block, &contents, watchers) {
                return Err(Fault::Step { fault, slots });
            }
            came.writes += 1;
        }
    }
    Ok(came)
}

// The number after this one.
fn next_number(number: u64) -> u64
    ensures { result ≡ number_behind number }
{
    number
        .wrapping_mul(6_364_136_223_846_793_005)
        .wrapping_add(1_442_695_040_888_963_407)
}

// The line that tells what so many steps from this number on came to.
fn exercised_line(number: u64, count: u64, came: Exercised) -> Line
    ensures { result ≡ line_of_exercised number count came }
{
    let mut line = Line::new();
    line.push_named(b"exercise ", number);
    line.push_named(b" ", count);
    line.push_named(b": reads ", came.reads);
    line.push_named(b" writes ", came.writes);
    line.push_named(b" scrubs ", came.scrubs);
    line.push_named(b" sum ", came.sum);
    line.push(b"\n");
    line
}
