//! A rack over image files: over files of the system, and over files with a fault.

use crate::faulty::{Fault, FaultyFiles};
use stair_base::SECTOR;
use stair_filerack::{Access, FileRack, Reason};
use stair_rack::{Got, Rack, Reply};
use std::io::ErrorKind;
use std::test::Fail;
use std::{fs, io};

// What an attach of slot 3 answers, and the number of sectors that it found.
fn attach(rack: &mut impl Rack) -> (Reply, u32) {
    (rack.attach(3), rack.sectors(3))
}

// What is read of the first four sectors of slot 3: each answer, and the last byte of the buffer.
fn read_all(rack: &mut impl Rack) -> [(Got, u8); 4] {
    [0, 1, 2, 3].map(|sector| {
        let mut into = [0; SECTOR];
        (rack.read(3, sector, &mut into), into[511])
    })
}

// What writes of these sectors of slot 3 answer.
fn write_all(rack: &mut impl Rack, sectors: [u32; 3]) -> [Reply; 3] {
    sectors.map(|sector| rack.write(3, sector, &[0xA5; SECTOR]))
}

// The words of a reason, where there is one.
fn words_of(rt: &HostRuntime, reason: Option<Reason>) -> Result<String, Fail> {
    match reason {
        Some(reason) => Ok(reason.to_string(rt.alloc())?),
        None => Ok(String::new(rt.alloc())),
    }
}

#[test]
fn real_files(rt: HostRuntime) -> Result<(), Fail> {
    let (folder, path) = ("real_files", "real_files/dev03.img");
    let _ = fs::remove_dir_all(&rt, folder);
    fs::create_dir(&rt, folder)?;
    let mut rack = FileRack::at(&rt, rt.alloc(), folder, Access::Writing)?;
    let (done, gone) = (Reply::Done, Reply::Gone);
    let (good, bad) = ((Got::Good, 0xA5), (Got::Bad, 0));

    // No file, which isn't made; one that is too short; and a blank one of three sectors and a part.
    assert_eq!(rt; attach(&mut rack), (gone, 0));
    fs::write(&rt, path, &[0; 543])?;
    assert_eq!(rt; attach(&mut rack), (done, 0));
    fs::write(&rt, path, &[0; 3 * 544 + 100])?;
    assert_eq!(rt; attach(&mut rack), (done, 3));
    assert_eq!(rt; write_all(&mut rack, [0, 2, 3]), [done, done, gone]);
    assert_eq!(rt; rack.sync(3), done);

    // Another rack reads what was written, and can't write; a third one that is to write can't have the file.
    let mut second = FileRack::at(&rt, rt.alloc(), folder, Access::Reading)?;
    assert_eq!(rt; attach(&mut second), (done, 3));
    assert_eq!(rt; read_all(&mut second), [good, bad, good, bad]);
    assert_eq!(rt; second.write(3, 1, &[0xA5; SECTOR]), gone);
    assert_eq!(rt; attach(&mut second), (done, 3));
    assert_eq!(rt; second.sync(3), gone);
    assert_eq!(rt;
        words_of(&rt, second.reason(3))?.as_str(),
        "open for reading alone"
    );
    let mut third = FileRack::at(&rt, rt.alloc(), folder, Access::Writing)?;
    let refused = third.probe().err().ok_or("had")?;
    assert_eq!(rt; refused.slot, 3);
    assert_eq!(rt; words_of(&rt, Some(refused.reason))?.as_str(), "in use");
    assert_eq!(rt; attach(&mut third), (gone, 0));
    assert!(rt; rack.probe().is_ok());
    assert_eq!(rt; attach(&mut rack), (done, 3));
    let mut bytes = fs::read(&rt, path)?;
    assert_eq!(rt; bytes.len(), 3 * 544 + 100);

    // A byte of the tag of sector 0 is changed, and the file is cut off in sector 2. Attached anew it has two sectors,
    // and doesn't grow.
    if let Some(byte) = bytes.get_mut(543) {
        *byte ^= 0x10;
    }
    bytes.truncate(2 * 544 + 300);
    fs::write(&rt, path, bytes.as_slice())?;
    assert_eq!(rt; read_all(&mut rack), [bad; 4]);
    assert_eq!(rt; attach(&mut rack), (done, 2));
    assert_eq!(rt; write_all(&mut rack, [0, 1, 2]), [done, done, gone]);
    assert_eq!(rt; read_all(&mut rack), [good, good, bad, bad]);
    assert_eq!(rt; fs::metadata(&rt, path)?.len(), 2 * 544 + 300);

    // The open file is kept until the slot is attached anew, here to a folder in its place.
    fs::remove_file(&rt, path)?;
    fs::create_dir(&rt, path)?;
    assert_eq!(rt; read_all(&mut rack), [good, good, bad, bad]);
    assert_eq!(rt; attach(&mut rack), (gone, 0));
    assert_eq!(rt;
        words_of(&rt, rack.reason(3))?.as_str(),
        "no file and no block device"
    );
    fs::remove_dir_all(&rt, folder)?;
    Ok(())
}

#[test]
fn files_with_a_fault(rt: HostRuntime) -> Result<(), Fail> {
    let (folder, path) = ("faulty", "faulty/dev03.img");
    let _ = fs::remove_dir_all(&rt, folder);
    fs::create_dir(&rt, folder)?;
    let (done, gone) = (Reply::Done, Reply::Gone);
    // Whether a slot holds a blank file with this fault, what a read, a write, a sync and another read answer, and the words
    // of the reason that is kept. A call that failed once wouldn't fail again, but only an interrupted one is tried again.
    for (fault, held, first, written, synced, second, words) in [
        (Fault::End, gone, Got::Gone, gone, gone, Got::Gone, "broken"),
        (Fault::Sync, done, Got::Bad, done, gone, Got::Gone, "broken"),
        (
            Fault::Call(io::Error::from_raw_os_error(28)),
            done,
            Got::Gone,
            gone,
            gone,
            Got::Gone,
            "No space left on device",
        ),
        (
            Fault::Call(io::Error::from_raw_os_error(5)),
            done,
            Got::Bad,
            done,
            done,
            Got::Bad,
            "",
        ),
        (
            Fault::Call(io::Error::from(ErrorKind::Interrupted)),
            done,
            Got::Bad,
            done,
            done,
            Got::Good,
            "",
        ),
    ] {
        fs::write(&rt, path, &[0; 544])?;
        let faulty = FaultyFiles { inner: &rt, fault };
        let mut rack = FileRack::at(faulty, rt.alloc(), folder, Access::Writing)?;
        assert_eq!(rt; rack.attach(3), held, "{fault:?}");
        assert_eq!(rt; rack.read(3, 0, &mut [0; SECTOR]), first, "{fault:?}");
        assert_eq!(rt; rack.write(3, 0, &[2; SECTOR]), written, "{fault:?}");
        assert_eq!(rt; rack.sync(3), synced, "{fault:?}");
        assert_eq!(rt; rack.read(3, 0, &mut [0; SECTOR]), second, "{fault:?}");
        assert_eq!(rt; words_of(&rt, rack.reason(3))?.as_str(), words, "{fault:?}");
    }
    fs::remove_dir_all(&rt, folder)?;
    Ok(())
}

// Which errors are the caller's and which the device's, by their numbers and their names in Linux.
#[test]
fn reasons_of_callers_and_of_devices(rt: HostRuntime) {
    for (number, is_callers) in [
        (1, true),
        (2, false),
        (5, false),
        (6, false),
        (12, true),
        (13, true),
        (19, false),
        (23, true),
        (24, true),
        (28, false),
        (30, true),
    ] {
        let reason = Reason::Failed(io::Error::from_raw_os_error(number));
        assert_eq!(rt; reason.is_callers(), is_callers, "{number}");
    }
    assert!(rt; !Reason::Failed(io::Error::other("full")).is_callers());
}
