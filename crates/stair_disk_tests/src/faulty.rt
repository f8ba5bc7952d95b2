//! Files of the system with a fault.

use stair_filerack::{Lock, Locking};
use std::alloc::Allocator;
use std::fs::{File, Files, Metadata, OpenFile, OpenOptions};
use std::io;
use std::io::{ErrorKind, Read, Seek, SeekFrom, Write};

#[derive(Clone, Copy, Debug, Drop)]
pub enum Fault {
    // Its end can't be sought.
    End,
    // Its data isn't synced.
    Sync,
    // The first read or write fails so, and then every second one.
    Call(io::Error),
    // A read of more than one sector fails so.
    Long(io::Error),
}

// The files of a runtime, each of which has this fault once it is open.
#[derive(Drop)]
pub struct FaultyFiles<'a> {
    pub inner: &'a HostRuntime,
    pub fault: Fault,
}

#[derive(Drop)]
pub struct FaultyFile {
    inner: File,
    fault: Fault,
    failed: bool,
}

fn broken<T>() -> io::Result<T> {
    Err(io::Error::other("broken"))
}

impl Files for FaultyFiles<'_> {
    type File = FaultyFile;

    type Dir = <HostRuntime as Files>::Dir;

    fn open_file(&self, how: &OpenOptions, path: &str) -> io::Result<FaultyFile> {
        Ok(FaultyFile {
            inner: self.inner.open_file(how, path)?,
            fault: self.fault,
            failed: false,
        })
    }

    fn metadata(&self, path: &str) -> io::Result<Metadata> {
        self.inner.metadata(path)
    }

    fn open_dir(&self, _path: &str) -> io::Result<Self::Dir> {
        broken()
    }

    fn symlink_metadata(&self, _path: &str) -> io::Result<Metadata> {
        broken()
    }

    fn copy(&self, _from: &str, _to: &str) -> io::Result<u64> {
        broken()
    }

    fn rename(&self, _from: &str, _to: &str) -> io::Result<()> {
        broken()
    }

    fn remove_file(&self, _path: &str) -> io::Result<()> {
        broken()
    }

    fn create_dir(&self, _path: &str) -> io::Result<()> {
        broken()
    }

    fn remove_dir(&self, _path: &str) -> io::Result<()> {
        broken()
    }

    fn remove_dir_all<B: Allocator>(&self, _alloc: B, _path: &str) -> io::Result<()> {
        broken()
    }
}

impl FaultyFile {
    fn fail(&mut self) -> io::Result<()> {
        self.failed = !self.failed;
        match self.fault {
            Fault::Call(error) if self.failed => Err(error),
            _ => Ok(()),
        }
    }
}

impl Read for FaultyFile {
    fn read(&mut self, buf: &mut [u8]) -> io::Result<usize> {
        self.fail()?;
        match self.fault {
            Fault::Long(error) if buf.len() > 544 => Err(error),
            _ => self.inner.read(buf),
        }
    }
}

impl Write for FaultyFile {
    fn write(&mut self, buf: &[u8]) -> io::Result<usize> {
        self.fail()?;
        self.inner.write(buf)
    }

    fn flush(&mut self) -> io::Result<()> {
        broken()
    }
}

impl Seek for FaultyFile {
    fn seek(&mut self, to: SeekFrom) -> io::Result<u64> {
        match (self.fault, to) {
            (Fault::End, SeekFrom::End(_)) => broken(),
            _ => self.inner.seek(to),
        }
    }
}

impl OpenFile for FaultyFile {
    fn metadata(&self) -> io::Result<Metadata> {
        self.inner.metadata()
    }

    fn set_len(&self, _size: u64) -> io::Result<()> {
        broken()
    }

    fn sync_all(&self) -> io::Result<()> {
        broken()
    }

    fn sync_data(&self) -> io::Result<()> {
        match self.fault {
            Fault::Sync => broken(),
            _ => self.inner.sync_data(),
        }
    }
}

impl Lock for FaultyFile {
    fn take_lock(&self) -> Locking {
        self.inner.take_lock()
    }
}
