// The folder of the devices: its lock, why it can't be used, and names in it that are close to those of devices.
use crate::report::report;
use stair_filerack::{Lock, Locking, Reason};
use std::fs::File;
use std::{fs, io};

// The error number of Linux of a path that is no directory, ENOTDIR.
const NO_DIRECTORY: i32 = 20;

/// The folder is in use by another program that may write.
#[derive(Clone, Copy, Debug, Drop)]
pub(crate) struct InUse;

/// Takes the advisory lock of the folder, and returns the file that holds it: one program at a time uses the devices of a
/// folder. The lock is released when the file is dropped. A folder that can't be opened, or has no locks, is reported.
pub(crate) fn lock_folder(rt: &HostRuntime, folder: &str) -> Result<Option<File>, InUse> {
    let file = match open_folder(rt, folder) {
        Ok(file) => file,
        Err(error) => {
            report(rt, folder, Reason::Failed(error));
            return Ok(None);
        }
    };
    match file.take_lock() {
        Locking::Taken => {}
        Locking::NoLocks => report(rt, folder, "no locks"),
        Locking::InUse => {
            report(rt, folder, "in use");
            return Err(InUse);
        }
    }
    Ok(Some(file))
}

/// Reports why the folder can't be read, if it can't.
pub(crate) fn look_at_folder(rt: &HostRuntime, folder: &str) {
    if let Err(error) = find_folder(rt, folder) {
        report(rt, folder, Reason::Failed(error));
    }
}

// A pipe in the folder's place isn't opened, since that may wait for another program.
fn open_folder(rt: &HostRuntime, folder: &str) -> io::Result<File> {
    find_folder(rt, folder)?;
    fs::open(rt, folder)
}

fn find_folder(rt: &HostRuntime, folder: &str) -> io::Result<()> {
    if fs::metadata(rt, folder)?.is_dir() {
        Ok(())
    } else {
        Err(io::Error::from_raw_os_error(NO_DIRECTORY))
    }
}

/// Reports each name in the folder that is close to that of a device, but is not one.
pub(crate) fn report_near_names(rt: &HostRuntime, folder: &str) {
    let Ok(entries) = fs::read_dir(rt, folder) else {
        return;
    };
    for entry in entries {
        if let Ok(entry) = entry
            && is_near(entry.file_name().as_bytes())
        {
            report(
                rt,
                entry.file_name(),
                "no device: their names are dev00.img to dev31.img",
            );
        }
    }
}

// Returns whether a name begins with `dev` and ends with `.img`, in either case, and is not that of a device.
fn is_near(name: &[u8]) -> bool {
    let begins = name
        .first_chunk::<3>()
        .is_some_and(|it| it.eq_ignore_ascii_case(b"dev"));
    let ends = name
        .last_chunk::<4>()
        .is_some_and(|it| it.eq_ignore_ascii_case(b".img"));
    begins && ends && is_printable(name) && !is_device(name)
}

fn is_printable(name: &[u8]) -> bool {
    for byte in name {
        if *byte < 0x20 || *byte == 0x7F {
            return false;
        }
    }
    true
}

fn is_device(name: &[u8]) -> bool {
    match name {
        [b'd', b'e', b'v', tens, ones, b'.', b'i', b'm', b'g'] => { is_below_32(*tens, *ones) }
        _ => false,
    }
}

fn is_below_32(tens: u8, ones: u8) -> bool {
    match tens {
        b'0'..=b'2' => ones.is_ascii_digit(),
        b'3' => matches!(ones, b'0' | b'1'),
        _ => false,
    }
}
