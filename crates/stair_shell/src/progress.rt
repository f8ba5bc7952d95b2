// How far a command is: how much of it is done, how fast it goes on, and how long it takes yet.
use crate::pace::{Pace, Reach, Start};
use crate::screen::Screen;
use crate::sectors::BadSectors;
use stair_base::{FIRST_PLACE, Geometry, SECOND_PLACE, SECTOR};
use stair_rack::{Got, Rack, Reply};
use stair_super::read_super;
use std::cell::Cell;
use std::rc::Rc;
use std::time::{Duration, Instant};

// A command that ends within so many milliseconds shows nothing.
const FIRST: u64 = 1000;

// The line is rewritten at most once in so many milliseconds.
const AGAIN: u64 = 100;

/// What a terminal measures the progress of a command by.
#[derive(Clone, Copy, Debug, PartialEq, Eq, Drop)]
pub(crate) enum Measure {
    /// How many sectors were read and written.
    Sectors,
    /// The stripe whose cells are read: those before it are done.
    StripesRead(Span),
    /// The stripe whose cells are written: those before it are done.
    StripesWritten(Span),
    /// How many bytes of a script were taken, which has so many.
    Script(u64),
}

/// The stripes that a command goes through.
#[derive(Clone, Copy, Debug, PartialEq, Eq, Drop)]
pub(crate) enum Span {
    /// All of the array.
    Whole,
    /// Those of some blocks.
    Blocks {
        /// The first block.
        block: u64,
        /// How many.
        count: u64,
    },
}

/// Where the numbers come from that are shown.
#[derive(Clone, Copy, Drop)]
pub(crate) struct Gauges<'a> {
    /// The geometry of the array that is made or open, once that is known.
    pub(crate) geometry: &'a Cell<Option<Geometry>>,
    /// How many bytes of the input were taken.
    pub(crate) taken: &'a Cell<u64>,
}

/// How far a command is.
#[derive(Drop)]
struct Progress<'a> {
    clock: &'a HostRuntime,
    screen: Rc<Screen>,
    measure: Measure,
    gauges: Gauges<'a>,
    // The stripe that was read or written last.
    stripe: Option<u64>,
    read: u64,
    written: u64,
    // Counts calls up to 256, and then from 0 on.
    calls: u8,
    // Where the pace is measured from.
    start: Option<Start>,
    // When the line was shown last, or else when the command began, and how many milliseconds ago that is to be.
    since: Instant,
    wait: u64,
}

impl Progress<'_> {
    // A command of which nothing was done. Nothing is shown where the clock fails.
    fn begin<'a>(
        clock: &'a HostRuntime,
        screen: Rc<Screen>,
        gauges: Gauges<'a>,
        measure: Option<Measure>,
    ) -> Option<Progress<'a>> {
        let measure = measure?;
        let since = Instant::now(clock).ok()?;
        Some(Progress {
            clock,
            screen,
            measure,
            gauges,
            stripe: None,
            read: 0,
            written: 0,
            calls: 0,
            start: None,
            since,
            wait: FIRST,
        })
    }

    fn saw_read(&mut self, sector: u32, got: Got) {
        if got == Got::Good {
            self.read = self.read.saturating_add(1);
        }
        if matches!(self.measure, Measure::StripesRead(_)) {
            self.note(sector);
        }
        self.saw_call();
    }

    fn saw_write(&mut self, sector: u32, reply: Reply) {
        if reply == Reply::Done {
            self.written = self.written.saturating_add(1);
        }
        if matches!(self.measure, Measure::StripesWritten(_)) {
            self.note(sector);
        }
        self.saw_call();
    }

    // Superblocks and the journal are of no stripe.
    fn note(&mut self, sector: u32) {
        if let Some(geometry) = self.gauges.geometry.get()
            && let Some(stripe) = stripe_at(&geometry, sector)
        {
            self.stripe = Some(stripe);
        }
    }

    fn saw_call(&mut self) {
        self.calls = self.calls.wrapping_add(1);
        if self.calls == 0 {
            self.look();
        }
    }

    // Shows how far the command is, where it is time to.
    fn look(&mut self) {
        let Ok(now) = Instant::now(self.clock) else {
            self.screen.clear();
            return;
        };
        let reach = self.reach();
        self.start_from(reach, now);
        if now.duration_since(self.since) > Duration::from_millis(self.wait) {
            self.since = now;
            self.wait = AGAIN;
            self.show(reach, now);
        }
    }

    // The pace is measured from the first look on, and anew where a command begins again with the first stripe.
    fn start_from(&mut self, reach: Option<Reach>, now: Instant) {
        if let Some(reach) = reach
            && !matches!(self.start, Some(start) if start.done <= reach.done)
        {
            self.start = Some(Start {
                done: reach.done,
                at: now,
            });
        }
    }

    fn show(&self, reach: Option<Reach>, now: Instant) {
        match (reach, self.start) {
            (Some(reach), Some(start)) => self.screen.show(Pace { reach, start, now }),
            (_, _) => {
                let (read, written) = (self.read, self.written);
                self.screen
                    .show(format_args!("read {read} written {written} sectors"));
            }
        }
    }

    // How much of the command is done, if that is known.
    fn reach(&self) -> Option<Reach> {
        match self.measure {
            Measure::Sectors => None,
            Measure::Script(bytes) => Some(Reach {
                done: self.gauges.taken.get(),
                whole: bytes,
                unit: "bytes of the script",
            }),
            Measure::StripesRead(span) | Measure::StripesWritten(span) => self.stripes(span),
        }
    }

    // How many of these stripes are done.
    fn stripes(&self, span: Span) -> Option<Reach> {
        let geometry = self.gauges.geometry.get()?;
        let (first, stripes) = stripes_of(&geometry, span)?;
        let done = self.stripe?.checked_sub(first)?;
        (done < stripes).then_some(Reach {
            done,
            whole: stripes,
            unit: "stripes",
        })
    }
}

// The stripe that has cells in this sector, if it is not one of those before all stripes.
fn stripe_at(geometry: &Geometry, sector: u32) -> Option<u64> {
    let rows = u32::from(geometry.r());
    let row = sector.checked_sub(geometry.cell_sector(0, 0))?;
    Some(u64::from(row / rows))
}

// The first of the stripes that a command goes through, and how many there are.
fn stripes_of(geometry: &Geometry, span: Span) -> Option<(u64, u64)> {
    match span {
        Span::Whole => Some((0, u64::from(geometry.stripes()))),
        Span::Blocks { block, count } => {
            let blocks = u64::from(geometry.u());
            let first = block.checked_div(blocks)?;
            let end = block
                .checked_add(count)?
                .checked_sub(1)?
                .checked_div(blocks)?;
            Some((first, end.checked_sub(first)?.checked_add(1)?))
        }
    }
}

/// A rack that shows how far a command is and counts bad sectors, and answers as its inner one.
#[derive(Drop)]
pub(crate) struct ProgressRack<'a, R: Rack> {
    rack: R,
    bad: BadSectors,
    geometry: &'a Cell<Option<Geometry>>,
    progress: Option<Progress<'a>>,
}

impl<'a, R: Rack + Drop> ProgressRack<'a, R> {
    /// Shows progress from here on by this measure, or nothing if there is none.
    pub(crate) fn new(
        rack: R,
        bad: BadSectors,
        rt: &'a HostRuntime,
        screen: Rc<Screen>,
        gauges: Gauges<'a>,
        measure: Option<Measure>,
    ) -> ProgressRack<'a, R> {
        ProgressRack {
            rack,
            bad,
            geometry: gauges.geometry,
            progress: Progress::begin(rt, screen, gauges, measure),
        }
    }

    /// The inner rack, which shows nothing, and the bad sectors.
    pub(crate) fn into_parts(self) -> (R, BadSectors) {
        let ProgressRack {
            rack,
            bad,
            geometry: _,
            progress: _,
        } = self;
        (rack, bad)
    }

    // Superblocks are written only to the open array, but may be read of other arrays too.
    fn learn(&self, place: &[u8; SECTOR]) {
        if let Some(block) = read_super(place) {
            self.geometry.set(Some(block.geometry()));
        }
    }
}

impl<R: Rack + Drop> Rack for ProgressRack<'_, R> {
    ghost is_honest = { R.is_honest };

    ghost history = { λ s. R.history s.rack };

    ghost bads = { λ s. R.bads s.rack };

    ghost gones = { λ s. R.gones s.rack };

    ghost reads = { λ s. R.reads s.rack };

    fn attach(&mut self, slot: u8) -> Reply {
        let reply = self.rack.attach(slot);
        if let Some(progress) = &mut self.progress {
            progress.saw_call();
        }
        reply
    }

    fn sectors(&mut self, slot: u8) -> u32 {
        self.rack.sectors(slot)
    }

    fn read(&mut self, slot: u8, sector: u32, into: &mut [u8; SECTOR]) -> Got {
        let got = self.rack.read(slot, sector, into);
        self.bad.saw_read(slot, sector, got);
        if let Some(progress) = &mut self.progress {
            progress.saw_read(sector, got);
        }
        got
    }

    fn write(&mut self, slot: u8, sector: u32, from: &[u8; SECTOR]) -> Reply {
        let reply = self.rack.write(slot, sector, from);
        if sector == FIRST_PLACE || sector == SECOND_PLACE {
            self.learn(from);
        }
        if let Some(progress) = &mut self.progress {
            progress.saw_write(sector, reply);
        }
        reply
    }

    fn sync(&mut self, slot: u8) -> Reply {
        let reply = self.rack.sync(slot);
        if let Some(progress) = &mut self.progress {
            progress.saw_call();
        }
        reply
    }
}
