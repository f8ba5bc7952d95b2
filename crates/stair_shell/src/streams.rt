// Readers and writers that keep why they failed, for standard input and output.
use crate::report::report;
use stair_filerack::Reason;
use stair_status::Status;
use std::cell::Cell;
use std::io;
use std::io::{Read, Write};

/// A reader or a writer that keeps in a cell why it failed last.
#[derive(Drop)]
pub(crate) struct Noting<'a, T> {
    inner: T,
    fault: &'a Cell<Option<io::Error>>,
}

impl<'a, T> Noting<'a, T> {
    /// Reads from or writes to `inner`.
    pub(crate) fn new(inner: T, fault: &'a Cell<Option<io::Error>>) -> Noting<'a, T> {
        Noting { inner, fault }
    }
}

impl<R: Read + Drop> Read for Noting<'_, R> {
    ghost remaining = { λ s. R.remaining s.inner };

    fn read(&mut self, buf: &mut [u8]) -> io::Result<usize> {
        let read = self.inner.read(buf);
        if let Err(error) = &read {
            self.fault.set(Some(*error));
        }
        read
    }
}

impl<W: Write + Drop> Write for Noting<'_, W> {
    ghost contents = { λ s. W.contents s.inner };

    fn write(&mut self, buf: &[u8]) -> io::Result<usize> {
        let written = self.inner.write(buf);
        if let Err(error) = &written {
            self.fault.set(Some(*error));
        }
        written
    }

    fn flush(&mut self) -> io::Result<()> {
        self.inner.flush()
    }
}

/// Reports why the stream failed, if a command ended because of it.
pub(crate) fn report_stream(
    rt: &HostRuntime,
    status: Status,
    input: Option<io::Error>,
    output: Option<io::Error>,
) {
    match (status, input, output) {
        (Status::InputFault, Some(error), _) => report_fault(rt, "standard input", error),
        (Status::OutputFault, _, Some(error)) => report_fault(rt, "standard output", error),
        (_, _, _) => {}
    }
}

/// Reports why a system call failed on this stream or path. A stream that was closed when the program began is the directory `/`,
/// as is one that a caller made a directory.
pub fn report_fault(rt: &HostRuntime, subject: &str, error: io::Error) {
    if error.kind() == io::ErrorKind::IsADirectory {
        report(rt, subject, "closed, or a directory");
    } else {
        report(rt, subject, Reason::Failed(error));
    }
}
