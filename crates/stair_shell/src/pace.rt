// How much of a command is done, how fast it goes on, and how long it takes yet.
use std::fmt;
use std::time::{Duration, Instant};

/// How much of a command is done.
#[derive(Clone, Copy, Debug, Drop)]
pub(crate) struct Reach {
    /// So many units.
    pub(crate) done: u64,
    /// Of so many.
    pub(crate) whole: u64,
    /// What a unit is, in the plural.
    pub(crate) unit: &'static str,
}

/// Where a pace is measured from: how much was done, and when.
#[derive(Clone, Copy, Debug, Drop)]
pub(crate) struct Start {
    pub(crate) done: u64,
    pub(crate) at: Instant,
}

/// How far a command is now. It is shown with its percentage, and after a second with its rate and the time that is left at that rate.
#[derive(Debug, Drop)]
pub(crate) struct Pace {
    pub(crate) reach: Reach,
    pub(crate) start: Start,
    pub(crate) now: Instant,
}

impl Pace {
    fn percent(&self) -> u64 {
        let Reach { done, whole, .. } = self.reach;
        done.saturating_mul(100).checked_div(whole).unwrap_or(0)
    }

    // How many units were done since the start, and in how many milliseconds, if those are a second at least.
    fn moved(&self) -> Option<(u64, u64)> {
        let moved = self.reach.done.checked_sub(self.start.done)?;
        let millis = millis_in(self.now.duration_since(self.start.at));
        (millis >= 1000).then_some((moved, millis))
    }
}

fn millis_in(time: Duration) -> u64 {
    let whole = time.as_secs().saturating_mul(1000);
    whole.saturating_add(u64::from(time.subsec_millis()))
}

impl fmt::Display for Pace {
    fn fmt<W: fmt::Write>(&self, f: &mut fmt::Formatter<W>) -> fmt::Result {
        let Reach { done, whole, unit } = self.reach;
        let percent = self.percent();
        write!(f, "{done} of {whole} {unit}, {percent} %")?;
        match self.moved() {
            Some((moved, millis)) => write_pace(f, whole.saturating_sub(done), moved, millis),
            None => Ok(()),
        }
    }
}

// The rate at which units were done in so many milliseconds, and the time that is left for others.
fn write_pace<W: fmt::Write>(
    f: &mut fmt::Formatter<W>,
    others: u64,
    moved: u64,
    millis: u64,
) -> fmt::Result {
    let rate = moved.saturating_mul(1000).checked_div(millis).unwrap_or(0);
    write!(f, ", {rate} a second")?;
    match others.saturating_mul(millis).checked_div(moved) {
        Some(left) => {
            write!(f, ", ")?;
            write_time(f, left / 1000)?;
            write!(f, " left")
        }
        None => Ok(()),
    }
}

fn write_time<W: fmt::Write>(f: &mut fmt::Formatter<W>, seconds: u64) -> fmt::Result {
    let (hours, minutes) = (seconds / 3600, seconds / 60 % 60);
    let rest = seconds % 60;
    if hours > 0 {
        write!(f, "{hours} h {minutes} min")
    } else if minutes > 0 {
        write!(f, "{minutes} min {rest} s")
    } else {
        write!(f, "{rest} s")
    }
}
