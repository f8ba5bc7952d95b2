use std::alloc::AllocError;
use std::fmt;

/// Why the program printed nothing, or not everything.
#[derive(Clone, Copy)]
pub(crate) enum Fault {
    /// The arguments are not a kernel and a number of rounds.
    Usage,
    /// Standard output failed.
    Output,
    /// The image file couldn't be opened, read, written or synced, or a sector of it couldn't be read.
    Image,
    /// Out of memory.
    OutOfMemory,
}

impl Fault {
    /// The exit status of the program.
    pub(crate) fn code(self) -> u8 {
        match self {
            Fault::Usage => 2,
            Fault::Output => 6,
            Fault::Image => 15,
            Fault::OutOfMemory => 17,
        }
    }
}

impl fmt::Display for Fault {
    fn fmt<W: fmt::Write>(&self, f: &mut fmt::Formatter<W>) -> fmt::Result {
        match self {
            Fault::Usage => write!(f, "usage: stair_bench [KERNEL ROUNDS]"),
            Fault::Output => write!(f, "output failed"),
            Fault::Image => write!(f, "the image file failed"),
            Fault::OutOfMemory => write!(f, "out of memory"),
        }
    }
}

impl From<AllocError> for Fault {
    fn from(_: AllocError) -> Fault {
        Fault::OutOfMemory
    }
}
