// Advisory locks on files.
use std::fs::{File, TryLockError};

/// What came of asking for the lock of a file.
#[derive(Clone, Copy, Debug, PartialEq, Eq, Drop)]
pub enum Locking {
    /// It was taken, and goes with the open file.
    Taken,
    /// Another open of the file has it, of this program or of another one.
    InUse,
    /// There are no locks on this file, as on some file systems.
    NoLocks,
}

/// An open file on which an advisory lock can be taken.
pub trait Lock {
    /// Takes the lock if it is free, and doesn't wait for it.
    fn take_lock(&self) -> Locking;
}

impl Lock for File {
    fn take_lock(&self) -> Locking {
        match self.try_lock() {
            Ok(()) => Locking::Taken,
            Err(TryLockError::WouldBlock) => Locking::InUse,
            Err(TryLockError::Error(_)) => Locking::NoLocks,
        }
    }
}
