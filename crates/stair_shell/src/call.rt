ghost use Rattle.std.specs.Prelude.{◌≡◌, ◌<◌, ◌≤◌, IfOk, IfSome, false};
ghost use Rattle.stair_monitor.specs.Quotas.{quota_left};
ghost use Rattle.stair_watch.specs.WatcherList.{AllStay};
ghost use Rattle.stair_watch.specs.Watchers.{printer_left, tally_left};

use crate::devices::DeviceUse;
use crate::hearing::{GeometryTap, HeardText};
use crate::limits::GivenNumbers;
use crate::progress::{Gauges, Measure, ProgressRack};
use crate::screen::{Cleared, Screen};
use crate::sectors::BadSectors;
use crate::streams::Noting;
use stair_base::Geometry;
use stair_conf::Job;
use stair_filerack::FileRack;
use stair_gf::Steps;
use stair_monitor::Quota;
use stair_rack::{Counts, EventKind, FromRead, FromWrite, Rack, Sink, Source, Watcher};
use stair_status::Status;
use stair_watch::{Printer, Tally, add};
use std::alloc::{AllocError, Global};
use std::cell::Cell;
use std::io;
use std::io::{BufReader, IsTerminal, Stderr, Stdin, Stdout};
use std::rc::Rc;
use std::sync::ledger::{Blank, Ledger};

/// The call that runs a command line over a rack, a source, a sink, watchers and a counter of steps.
pub trait TopCall {
    /// Runs the command line, and returns its result. None of the watchers has left.
    fn answer<R: Rack, S: Source, K: Sink, L: Ledger>(
        &self,
        alloc: Global,
        words: &[String],
        rack: &mut R,
        input: &mut S,
        output: &mut K,
        watchers: &mut Vec<Box<dyn Watcher>>,
        steps: &mut Steps<L>,
    ) -> Status
        requires { AllStay hears watchers.old.items };
}

/// The limits of the two watchers of a guarded script: the number of events, and the number of fenced slots, after which each leaves.
#[derive(Clone, Copy)]
pub(crate) struct Limits {
    events: u64,
    fences: u64,
}

/// Returns the limits of the watchers of this command, or `None` if it is not a guarded script.
pub(crate) fn limits_of(job: &Job) -> Option<Limits>
    ensures { IfSome result (λ l. (1 ≤ l.events) × (1 ≤ l.fences)) }
{
    match job {
        // a command line has no other limits
        Job::Guard { events, fences } if *events > 0 && *fences > 0 => Some(Limits {
            events: *events,
            fences: *fences,
        }),
        _ => None,
    }
}

/// How a call is made.
#[derive(Clone, Copy, Debug, Drop)]
pub(crate) struct Manner {
    /// What its command does with the devices.
    pub(crate) usage: DeviceUse,
    /// What a terminal measures its progress by. If `None`, it shows nothing.
    pub(crate) measure: Option<Measure>,
    /// How many bytes of the input are read ahead at most.
    pub(crate) ahead: usize,
}

/// What a call left.
#[derive(Drop)]
pub(crate) struct Called<'a> {
    /// Its status.
    pub(crate) status: Status,
    /// The devices.
    pub(crate) rack: FileRack<&'a HostRuntime>,
    /// Their bad sectors.
    pub(crate) bad: BadSectors,
    /// The geometry of the array that was made or opened.
    pub(crate) geometry: Option<Geometry>,
    /// The numbers of a geometry text that breaks a limit.
    pub(crate) given: Option<GivenNumbers>,
    /// Why standard input failed last, and standard output.
    pub(crate) input: Option<io::Error>,
    pub(crate) output: Option<io::Error>,
}

/// Makes the call. Events of the array are printed on standard error as they happen, and counted. While the call runs, a terminal
/// shows its progress. A guarded script has two more watchers after those two, with these limits. The only error is out of
/// memory, before the call.
pub(crate) fn call<'a, T: TopCall, L: Ledger>(
    rt: &'a HostRuntime,
    top: &T,
    rack: FileRack<&'a HostRuntime>,
    manner: Manner,
    limits: Option<Limits>,
    command: &[String],
    blank: Blank,
    counts: &mut Counts,
) -> Result<Called<'a>, AllocError>
    requires name { blank.name ≡ L.name }
    requires parts { blank.parts ≡ L.parts }
    requires some { 0 < L.parts }
    requires limits { IfSome limits (λ l. (1 ≤ l.events) × (1 ≤ l.fences)) }
{
    let screen = Rc::new(rt.alloc(), Screen::new(rt.stderr()))?;
    let (geometry, given) = (Cell::new(None), Cell::new(None));
    let (input_fault, output_fault) = (Cell::new(None), Cell::new(None));
    let taken = Cell::new(0);
    let heard = HeardText::new(rt.alloc(), &geometry, &given);
    let mut input = input_of(rt, manner, heard, &taken, &input_fault)?;
    let mut output = output_of(rt, &screen, &output_fault)?;
    let Observers {
        printer,
        tally,
        bounds,
    } = observers_of(rt, &screen, limits)?;
    let bad = BadSectors::new(rt.alloc())?;
    let gauges = Gauges {
        geometry: &geometry,
        taken: &taken,
    };
    let mut rack = ProgressRack::new(rack, bad, rt, screen.clone()?, gauges, manner.measure);
    let mut watchers = Vec::new(rt.alloc());
    add_two(&mut watchers, printer, tally)?;
    if let Some((events, fences)) = bounds {
        add_two(&mut watchers, events, fences)?;
    }
    let mut steps = Steps::<L>::new(blank);
    let status = top.answer(
        rt.alloc(),
        command,
        &mut rack,
        &mut input,
        &mut output,
        &mut watchers,
        &mut steps,
    );
    screen.clear();
    // the tally after the printer never leaves, and counts them all
    if let Some(tally) = watchers.get(1) {
        *counts = tally.counts();
    }
    let (mut rack, bad) = rack.into_parts();
    // writes what is pending; a file that fails keeps the reason, which is reported with those of the call
    rack.finish();
    Ok(Called {
        status,
        rack,
        bad,
        geometry: geometry.get(),
        given: given.get(),
        input: input_fault.get(),
        output: output_fault.get(),
    })
}

/// Standard input.
type Input<'f> = FromRead<BufReader<Noting<'f, Stdin>>>;

// Standard input. For a new array its geometry is read from it as well.
fn input_of<'g, 'f>(
    rt: &HostRuntime,
    manner: Manner,
    heard: HeardText<'g>,
    taken: &'g Cell<u64>,
    fault: &'f Cell<Option<io::Error>>,
) -> Result<GeometryTap<'g, Input<'f>>, AllocError> {
    let input = Noting::new(rt.stdin(), fault);
    let Ok(input) = BufReader::with_capacity(rt.alloc(), manner.ahead, input) else {
        return Err(AllocError);
    };
    let input = FromRead::new(input);
    Ok(match manner.usage {
        DeviceUse::Made => GeometryTap::new(input, taken, heard),
        DeviceUse::Unused | DeviceUse::Shown | DeviceUse::Opened => GeometryTap::deaf(input, taken),
    })
}

/// Standard output.
type Output<'f> = FromWrite<Noting<'f, Cleared<Stdout>>>;

// Standard output. If it goes to a terminal, it clears the progress line first.
fn output_of<'f>(
    rt: &HostRuntime,
    screen: &Rc<Screen>,
    fault: &'f Cell<Option<io::Error>>,
) -> Result<Output<'f>, AllocError> {
    let over = if rt.stdout().is_terminal() {
        Some(screen.clone()?)
    } else {
        None
    };
    let output = Cleared::new(rt.stdout(), over);
    Ok(FromWrite::new(Noting::new(output, fault)))
}

/// A writer to standard error for a watcher.
type Errors = FromWrite<Cleared<Stderr>>;

// The watchers of a call: one that prints, one that counts, and for a guarded script two with its limits.
#[derive(Drop)]
struct Observers {
    printer: Box<Printer<Errors>>,
    tally: Box<Tally>,
    bounds: Option<(Box<Tally>, Box<Quota<Errors>>)>,
}

fn observers_of(
    rt: &HostRuntime,
    screen: &Rc<Screen>,
    limits: Option<Limits>,
) -> Result<Observers, AllocError>
    requires limits { IfSome limits (λ l. (1 ≤ l.events) × (1 ≤ l.fences)) }
    ensures stay { IfOk result (λ w. (printer_left w.printer.value ≡ false)
        × (tally_left w.tally.value ≡ false)
        × IfSome w.bounds (λ b. (tally_left b.0.value ≡ false) × (quota_left b.1.value ≡ false))) }
{
    let printer = Box::new(rt.alloc(), Printer::new(errors_of(rt, screen)?))?;
    let tally = Box::new(rt.alloc(), Tally::new(u64::MAX))?;
    let bounds = match limits {
        Some(Limits { events, fences }) => {
            let quota = Quota::new(EventKind::Fenced, fences, errors_of(rt, screen)?);
            let events = Box::new(rt.alloc(), Tally::new(events))?;
            Some((events, Box::new(rt.alloc(), quota)?))
        }
        None => None,
    };
    Ok(Observers {
        printer,
        tally,
        bounds,
    })
}

fn errors_of(rt: &HostRuntime, screen: &Rc<Screen>) -> Result<Errors, AllocError> {
    Ok(FromWrite::new(Cleared::new(rt.stderr(), Some(screen.clone()?))))
}

// Adds two watchers after the others.
fn add_two(
    watchers: &mut Vec<Box<dyn Watcher>>,
    first: Box<dyn Watcher>,
    second: Box<dyn Watcher>,
) -> Result<(), AllocError>
    requires others { AllStay hears watchers.old.items }
    requires first { (hears first).left ≡ false }
    requires second { (hears second).left ≡ false }
    ensures stay { AllStay hears watchers.new.items }
{
    add(watchers, first)?;
    add(watchers, second)
}
