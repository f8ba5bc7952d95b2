// A terminal that shows how far a command is: one line on standard error, which is overwritten as it goes on and cleared at the end.
use stair_rack::FromWrite;
use stair_watch::put_until_fault;
use std::cell::Cell;
use std::fmt::Display;
use std::io;
use std::io::{Cursor, Stderr, Write};
use std::rc::Rc;

// A line has at most so many bytes.
const MOST: usize = 200;

/// Standard error, and whether the line is on it.
#[derive(Drop)]
pub(crate) struct Screen {
    stderr: Stderr,
    shown: Cell<bool>,
}

impl Screen {
    /// Nothing is shown yet.
    pub(crate) fn new(stderr: Stderr) -> Screen {
        Screen {
            stderr,
            shown: Cell::new(false),
        }
    }

    /// Puts this text in the place of the line that is shown.
    pub(crate) fn show(&self, text: impl Display + Drop) {
        self.put(text);
        self.shown.set(true);
    }

    /// Clears the line where it is shown.
    pub(crate) fn clear(&self) {
        if self.shown.replace(false) {
            self.put("");
        }
    }

    // Goes back to the beginning of the line, and erases what comes after the text. It is put out in one piece. Where the terminal
    // can't be written, the command goes on.
    fn put(&self, text: impl Display + Drop) {
        let mut line = Cursor::new([0; MOST]);
        let _ = write!(line, "\r{text}\x1b[K");
        let length = usize::try_from(line.position()).unwrap_or(0).min(MOST);
        let bytes = line.into_inner();
        put_until_fault(&mut FromWrite::new(self.stderr), &bytes[..length]);
    }
}

/// A writer to the terminal, or to something else, that clears the line first where it writes to the terminal.
#[derive(Drop)]
pub(crate) struct Cleared<W: Write> {
    writer: W,
    screen: Option<Rc<Screen>>,
}

impl<W: Write + Drop> Cleared<W> {
    /// A writer that clears the line of this screen, where it writes to one.
    pub(crate) fn new(writer: W, screen: Option<Rc<Screen>>) -> Cleared<W> {
        Cleared { writer, screen }
    }
}

impl<W: Write + Drop> Write for Cleared<W> {
    ghost contents = { λ s. W.contents s.writer };

    fn write(&mut self, buf: &[u8]) -> io::Result<usize> {
        if let Some(screen) = &self.screen {
            screen.clear();
        }
        self.writer.write(buf)
    }

    fn flush(&mut self) -> io::Result<()> {
        self.writer.flush()
    }
}
