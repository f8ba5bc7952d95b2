// Why a device was gone, or can't be had.
ghost use Rattle.std.specs.Prelude.{◌≡◌, ◌↔◌, Any, IsTrue, Some};
ghost use Rattle.std.specs.IoError.{raw_os_error};
ghost use Rattle.stair_filerack.specs.Reason.{HasNumber, IsBadSector, IsCallers, IsNoFile, first_reason, numbers_of_permissions, numbers_of_shortages};

use std::io::{Cursor, Write};
use std::{fmt, io, str};

// Error numbers of Linux, by their names there.
const EPERM: i32 = 1;

const ENOENT: i32 = 2;

const EIO: i32 = 5;

const ENOMEM: i32 = 12;

const EACCES: i32 = 13;

const ENFILE: i32 = 23;

const EMFILE: i32 = 24;

const EROFS: i32 = 30;

// How many bytes of what an error says are kept; those of the system have fewer.
const MOST_WORDS: usize = 128;

/// Why a device was gone, or can't be had.
#[derive(Clone, Copy, Debug, Drop)]
pub enum Reason {
    /// A call of the system on its file failed so.
    Failed(io::Error),
    /// Another program has the lock of its file, or another slot the same file.
    InUse,
    /// Its path leads to something that is neither a file nor a block device.
    NoDevice,
    /// It was to be written or synced, and is open for reading alone.
    OpenForReading,
}

impl Reason {
    /// Whether the reason is the caller's and not the device's: a permission, a file system that is mounted for reading
    /// alone, too many open files, lack of memory, or a lock that another has.
    pub fn is_callers(&self) -> bool
        ensures { IsTrue result ↔ IsCallers self.now }
    {
        match self {
            Reason::Failed(error) => is_forbidden(error) || is_short(error),
            Reason::InUse => true,
            Reason::NoDevice | Reason::OpenForReading => false,
        }
    }

    /// Whether there is no file.
    pub(crate) fn is_no_file(&self) -> bool
        ensures { IsTrue result ↔ IsNoFile self.now }
    {
        match self {
            Reason::Failed(error) => has_number(error, ENOENT),
            Reason::InUse | Reason::NoDevice | Reason::OpenForReading => false,
        }
    }
}

// Whether a call failed since the caller may not do it: EPERM, EACCES or EROFS.
fn is_forbidden(error: &io::Error) -> bool
    ensures { IsTrue result ↔ Any (HasNumber error.now) numbers_of_permissions }
{
    has_number(error, EPERM) || has_number(error, EACCES) || has_number(error, EROFS)
}

// Whether a call failed since the caller lacks what it takes: ENOMEM, ENFILE or EMFILE.
fn is_short(error: &io::Error) -> bool
    ensures { IsTrue result ↔ Any (HasNumber error.now) numbers_of_shortages }
{
    has_number(error, ENOMEM) || has_number(error, ENFILE) || has_number(error, EMFILE)
}

// Whether a call of the system failed by the error of this number.
fn has_number(error: &io::Error, number: i32) -> bool
    ensures { IsTrue result ↔ (raw_os_error error.now ≡ Some number) }
{
    error.raw_os_error() == Some(number)
}

/// Whether a read failed since its sector can't be read any more, as a disk says it.
pub(crate) fn is_bad_sector(error: &io::Error) -> bool
    ensures { IsTrue result ↔ IsBadSector error.now }
{
    has_number(error, EIO)
}

/// Keeps a reason where none is kept yet.
pub(crate) fn keep_first(kept: &mut Option<Reason>, reason: Reason)
    ensures { kept.new ≡ first_reason kept.old reason }
{
    if kept.is_none() {
        *kept = Some(reason);
    }
}

impl From<io::Error> for Reason {
    ghost use Rattle.std.specs.Prelude.{◌≡◌};
    ghost use Rattle.stair_filerack.specs.declared.reason.Reason.TheVariants.{Failed};

    ghost from_gives = { λ error reason. reason ≡ Failed error };

    fn from(error: io::Error) -> Reason {
        Reason::Failed(error)
    }
}

/// The words for a line, as the system has them for its errors.
impl fmt::Display for Reason {
    fn fmt<W: fmt::Write>(&self, f: &mut fmt::Formatter<W>) -> fmt::Result {
        match self {
            Reason::Failed(error) => write_error(f, error),
            Reason::InUse => write!(f, "in use"),
            Reason::NoDevice => write!(f, "no file and no block device"),
            Reason::OpenForReading => write!(f, "open for reading alone"),
        }
    }
}

// What the error says, without the number that std puts after the system's words.
fn write_error<W: fmt::Write>(f: &mut fmt::Formatter<W>, error: &io::Error) -> fmt::Result {
    let mut said = Cursor::new([0; MOST_WORDS]);
    let _ = write!(said, "{error}");
    let length = usize::try_from(said.position())
        .unwrap_or(0)
        .min(MOST_WORDS);
    let bytes = said.into_inner();
    let said = str::from_utf8(&bytes[..length]).unwrap_or("failed");
    match said.split_once(" (os error ") {
        Some((words, _number)) => write!(f, "{words}"),
        None => write!(f, "{said}"),
    }
}
