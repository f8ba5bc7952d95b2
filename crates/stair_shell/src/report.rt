// Lines on standard error.
use std::fmt;
use std::fmt::Display;

/// The name of the image file of a slot.
#[derive(Clone, Copy, Debug, Drop)]
pub(crate) struct Device {
    pub(crate) slot: u8,
}

impl fmt::Display for Device {
    fn fmt<W: fmt::Write>(&self, f: &mut fmt::Formatter<W>) -> fmt::Result {
        let tens = self.slot / 10;
        let ones = self.slot % 10;
        write!(f, "dev{tens}{ones}.img")
    }
}

/// Prints a line on standard error: its subject and its text. If it can't be written, the exit status still has the cause.
pub(crate) fn report(rt: &HostRuntime, subject: impl Display + Drop, what: impl Display + Drop) {
    let _ = eprintln!(rt; "{subject}: {what}");
}
