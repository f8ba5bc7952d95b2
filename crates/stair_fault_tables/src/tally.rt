use std::alloc::AllocError;
use std::fmt;

/// Why no table was tried to its end.
#[derive(Clone, Copy)]
pub(crate) enum Fault {
    /// The arguments are not those of the usage.
    Usage,
    /// A case wasn't as it should be, which was printed.
    Wrong,
    /// Standard output failed.
    Output,
    /// Out of memory.
    OutOfMemory,
}

impl Fault {
    /// The exit status of the program.
    pub(crate) fn code(self) -> u8 {
        match self {
            Fault::Usage => 2,
            Fault::Wrong => 1,
            Fault::Output => 6,
            Fault::OutOfMemory => 17,
        }
    }
}

impl fmt::Display for Fault {
    fn fmt<W: fmt::Write>(&self, f: &mut fmt::Formatter<W>) -> fmt::Result {
        match self {
            Fault::Usage => write!(f, "usage: stair_fault_tables [whole]"),
            Fault::Wrong => write!(f, "not all was as it should be"),
            Fault::Output => write!(f, "output failed"),
            Fault::OutOfMemory => write!(f, "out of memory"),
        }
    }
}

impl From<AllocError> for Fault {
    fn from(_: AllocError) -> Fault {
        Fault::OutOfMemory
    }
}

/// Which other bytes are tried at the places of superblocks and gates.
#[derive(Clone, Copy, PartialEq, Eq)]
pub(crate) enum Extent {
    /// Some, and after the fields only at some places.
    Some,
    /// All, or many, at all places.
    Whole,
}

/// Which case of a table: the call of the rack before which something happens, or the row, and what happens there, by its number.
#[derive(Clone, Copy)]
pub(crate) struct Case {
    pub(crate) at: u32,
    pub(crate) number: u32,
}

/// How many cases were as they should be, how many weren't, and the first of those.
#[derive(Clone, Copy)]
pub(crate) struct Tally {
    right: u32,
    wrong: u32,
    first_wrong: Option<Case>,
}

impl Tally {
    pub(crate) fn new() -> Tally {
        Tally {
            right: 0,
            wrong: 0,
            first_wrong: None,
        }
    }

    /// Counts a case.
    pub(crate) fn judge(&mut self, is_right: bool, at: u32, number: u32) {
        if is_right {
            self.right = self.right.saturating_add(1);
        } else {
            self.wrong = self.wrong.saturating_add(1);
            self.first_wrong = self.first_wrong.or(Some(Case { at, number }));
        }
    }
}

/// The result of a part of a table.
#[derive(Clone, Copy)]
pub(crate) struct Part {
    name: &'static str,
    /// How many calls of the rack it goes over, where it goes over calls.
    calls: Option<u32>,
    tally: Tally,
}

impl Part {
    /// A part that goes over the calls of a command.
    pub(crate) fn over_calls(name: &'static str, calls: u32, tally: Tally) -> Part {
        Part {
            name,
            calls: Some(calls),
            tally,
        }
    }

    /// A part that goes over a list of cases.
    pub(crate) fn over_cases(name: &'static str, tally: Tally) -> Part {
        Part {
            name,
            calls: None,
            tally,
        }
    }

    pub(crate) fn is_right(&self) -> bool {
        self.tally.wrong == 0 && self.tally.right > 0
    }

    pub(crate) fn goes_over_calls(&self) -> bool {
        self.calls.is_some()
    }

    /// How many cases were tried.
    pub(crate) fn cases(&self) -> u32 {
        self.tally.right.saturating_add(self.tally.wrong)
    }
}

impl fmt::Display for Part {
    fn fmt<W: fmt::Write>(&self, f: &mut fmt::Formatter<W>) -> fmt::Result {
        match self.calls {
            Some(calls) => write!(f, "{}: {} calls", self.name, calls)?,
            None => write!(f, "{}: {} cases", self.name, self.cases())?,
        }
        match self.tally.first_wrong {
            Some(case) => write!(
                f,
                ", {} wrong, the first at {}, number {}",
                self.tally.wrong, case.at, case.number
            ),
            None => Ok(()),
        }
    }
}
