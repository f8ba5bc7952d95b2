//! Reads of sectors in order over image files, also with some skipped. Sectors that are read ahead answer as if each were read
//! alone.

use crate::faulty::{Fault, FaultyFiles};
use stair_base::SECTOR;
use stair_filerack::{Access, FileRack};
use stair_image::seal;
use stair_rack::{Got, Rack, Reply};
use std::process::Abort;
use std::test::Fail;
use std::{fs, io};

// The sectors of the image files.
const COUNT: u32 = 20;

// The bytes of an image file: sector k has the payload of which each byte is `first` + k.
fn image(rt: &HostRuntime, first: u8) -> Result<Vec<u8>, Fail> {
    let mut bytes = Vec::new(rt.alloc());
    for sector in 0..COUNT {
        let byte = first.wrapping_add((sector % 256) as u8);
        bytes.extend_from_slice(&seal(u64::from(sector), &[byte; SECTOR]))?;
    }
    Ok(bytes)
}

// An empty folder.
fn empty_folder(rt: &HostRuntime, folder: &str) -> Result<(), Fail> {
    let _ = fs::remove_dir_all(rt, folder);
    fs::create_dir(rt, folder)?;
    Ok(())
}

// What a read of a sector of slot 3 answers, and the last byte of the buffer.
fn read(rack: &mut impl Rack, sector: u32) -> (Got, u8) {
    let mut into = [0; SECTOR];
    (rack.read(3, sector, &mut into), into[511])
}

// What a read of this sector answers where the sectors from `bad` to `end` are bad.
fn wanted(sector: u32, bad: u32, end: u32) -> (Got, u8) {
    if sector >= bad && sector < end {
        (Got::Bad, 0)
    } else {
        (Got::Good, (sector % 256) as u8)
    }
}

// Reads all sectors in order, of which those from `bad` to `end` are to be bad.
fn check_all<R: Abort>(rt: &R, rack: &mut impl Rack, bad: u32, end: u32) {
    for sector in 0..COUNT {
        assert_eq!(rt;
            read(rack, sector),
            wanted(sector, bad, end),
            "{sector} {bad}"
        );
    }
}

#[test]
fn a_bad_sector_costs_itself_alone(rt: HostRuntime) -> Result<(), Fail> {
    let (folder, path) = ("one_bad", "one_bad/dev03.img");
    empty_folder(&rt, folder)?;
    for bad in 0..COUNT {
        let mut bytes = image(&rt, 0)?;
        if let Some(byte) = bytes.get_mut(544 * bad as usize + 511) {
            *byte ^= 1;
        }
        fs::write(&rt, path, bytes.as_slice())?;
        let mut rack = FileRack::at(&rt, rt.alloc(), folder, Access::Reading)?;
        assert_eq!(rt; rack.attach(3), Reply::Done);
        check_all(&rt, &mut rack, bad, bad + 1);
        // From the last to the first no sector is read ahead.
        for sector in (0..COUNT).rev() {
            assert_eq!(rt;
                read(&mut rack, sector),
                wanted(sector, bad, bad + 1),
                "{sector} {bad}"
            );
        }
    }
    fs::remove_dir_all(&rt, folder)?;
    Ok(())
}

#[test]
fn sectors_that_are_passed_over(rt: HostRuntime) -> Result<(), Fail> {
    let (folder, path) = ("passed", "passed/dev03.img");
    empty_folder(&rt, folder)?;
    for bad in 0..COUNT {
        let mut bytes = image(&rt, 0)?;
        if let Some(byte) = bytes.get_mut(544 * bad as usize + 511) {
            *byte ^= 1;
        }
        fs::write(&rt, path, bytes.as_slice())?;
        let mut rack = FileRack::at(&rt, rt.alloc(), folder, Access::Reading)?;
        // The first sectors of each chunk are read, as where the others are parities.
        for (read_of, chunk) in [(1, 2), (3, 4), (2, 4), (1, 4), (1, 7), (2, 9), (1, 12)] {
            assert_eq!(rt; rack.attach(3), Reply::Done);
            for sector in 0..COUNT {
                if sector % chunk < read_of {
                    assert_eq!(rt;
                        read(&mut rack, sector),
                        wanted(sector, bad, bad + 1),
                        "{sector} of {chunk}, {bad}"
                    );
                }
            }
        }
    }
    fs::remove_dir_all(&rt, folder)?;
    Ok(())
}

// The last bytes of the buffer after reads of these sectors.
fn read_three(rack: &mut impl Rack, sectors: [u32; 3]) -> [u8; 3] {
    sectors.map(|sector| read(rack, sector).1)
}

#[test]
fn what_is_passed_over_is_read_ahead(rt: HostRuntime) -> Result<(), Fail> {
    let (folder, path) = ("over", "over/dev03.img");
    empty_folder(&rt, folder)?;
    let (old, new) = (image(&rt, 0)?, image(&rt, 100)?);
    fs::write(&rt, path, old.as_slice())?;
    let mut rack = FileRack::at(&rt, rt.alloc(), folder, Access::Reading)?;
    assert_eq!(rt; rack.attach(3), Reply::Done);
    // After sector 0 the sectors 1 to 8 are read at once, by the read of 2.
    assert_eq!(rt; read(&mut rack, 0), (Got::Good, 0));
    assert_eq!(rt; read(&mut rack, 2), (Got::Good, 2));
    fs::write(&rt, path, new.as_slice())?;
    assert_eq!(rt; read_three(&mut rack, [3, 6, 8]), [3, 6, 8]);
    // Sectors 9 to 16 are read at once, by the read of 11.
    assert_eq!(rt; read(&mut rack, 11), (Got::Good, 111));
    fs::write(&rt, path, old.as_slice())?;
    assert_eq!(rt; read_three(&mut rack, [12, 15, 16]), [112, 115, 116]);
    // A sector that was passed over is read alone.
    assert_eq!(rt; read_three(&mut rack, [10, 9, 8]), [10, 9, 8]);
    // Sectors 9 to 16 are read at once. A sector after that is read releases them.
    assert_eq!(rt; read(&mut rack, 13), (Got::Good, 13));
    fs::write(&rt, path, new.as_slice())?;
    assert_eq!(rt; read_three(&mut rack, [14, 12, 16]), [14, 112, 116]);
    fs::remove_dir_all(&rt, folder)?;
    Ok(())
}

#[test]
fn the_sector_that_was_read_last_answers_again(rt: HostRuntime) -> Result<(), Fail> {
    let (folder, path) = ("again", "again/dev03.img");
    empty_folder(&rt, folder)?;
    let (old, new) = (image(&rt, 0)?, image(&rt, 100)?);
    fs::write(&rt, path, old.as_slice())?;
    let mut rack = FileRack::at(&rt, rt.alloc(), folder, Access::Reading)?;
    assert_eq!(rt; rack.attach(3), Reply::Done);
    // Sectors 1 to 8 are read at once, by the read of 2.
    assert_eq!(rt; read_three(&mut rack, [0, 2, 5]), [0, 2, 5]);
    fs::write(&rt, path, new.as_slice())?;
    assert_eq!(rt; read_three(&mut rack, [5, 5, 6]), [5, 5, 6]);
    assert_eq!(rt; read_three(&mut rack, [8, 8, 8]), [8, 8, 8]);
    // An earlier one is read from the file, and releases it.
    assert_eq!(rt; read_three(&mut rack, [5, 8, 5]), [105, 108, 105]);
    // A bad sector that was held stays bad until it is read from the file.
    let mut bytes = image(&rt, 0)?;
    if let Some(byte) = bytes.get_mut(544 * 7 + 511) {
        *byte ^= 1;
    }
    fs::write(&rt, path, bytes.as_slice())?;
    assert_eq!(rt; read_three(&mut rack, [0, 1, 6]), [0, 1, 6]);
    assert_eq!(rt; read(&mut rack, 7), (Got::Bad, 0));
    fs::write(&rt, path, new.as_slice())?;
    assert_eq!(rt; read(&mut rack, 7), (Got::Bad, 0));
    assert_eq!(rt; read_three(&mut rack, [6, 7, 8]), [106, 107, 108]);
    fs::remove_dir_all(&rt, folder)?;
    Ok(())
}

#[test]
fn a_file_that_ends_among_eight(rt: HostRuntime) -> Result<(), Fail> {
    let (folder, path) = ("ends", "ends/dev03.img");
    empty_folder(&rt, folder)?;
    let bytes = image(&rt, 0)?;
    for end in 0..COUNT {
        fs::write(&rt, path, bytes.as_slice())?;
        let mut rack = FileRack::at(&rt, rt.alloc(), folder, Access::Reading)?;
        assert_eq!(rt; rack.attach(3), Reply::Done);
        let part = bytes.get(..544 * end as usize + 100);
        fs::write(&rt, path, part.expect(&rt, "the sectors before it"))?;
        check_all(&rt, &mut rack, end, COUNT);
        fs::write(&rt, path, bytes.as_slice())?;
        check_all(&rt, &mut rack, COUNT, COUNT);
    }
    fs::remove_dir_all(&rt, folder)?;
    Ok(())
}

#[test]
fn what_is_held_is_dropped(rt: HostRuntime) -> Result<(), Fail> {
    let (folder, path) = ("dropped", "dropped/dev03.img");
    empty_folder(&rt, folder)?;
    let (old, new) = (image(&rt, 0)?, image(&rt, 100)?);
    // A write of another sector, a sync, an attach, and reads of sectors that aren't held, of which one was passed over, each after
    // sectors 1 to 8 were read at once and the file was changed.
    for call in 0..6 {
        fs::write(&rt, path, old.as_slice())?;
        let mut rack = FileRack::at(&rt, rt.alloc(), folder, Access::Writing)?;
        assert_eq!(rt; rack.attach(3), Reply::Done);
        assert_eq!(rt;
            [0, 1, 2].map(|sector| read(&mut rack, sector).1),
            [0, 1, 2]
        );
        fs::write(&rt, path, new.as_slice())?;
        assert_eq!(rt; read(&mut rack, 3), (Got::Good, 3));
        match call {
            0 => assert_eq!(rt; rack.write(3, 15, &[7; SECTOR]), Reply::Done),
            1 => assert_eq!(rt; rack.sync(3), Reply::Done),
            2 => assert_eq!(rt; rack.attach(3), Reply::Done),
            3 => assert_eq!(rt; read(&mut rack, 12), (Got::Good, 112)),
            4 => assert_eq!(rt; read(&mut rack, 18), (Got::Good, 118)),
            _ => assert_eq!(rt; read(&mut rack, 2), (Got::Good, 102)),
        }
        assert_eq!(rt;
            [4, 5, 6].map(|sector| read(&mut rack, sector).1),
            [104, 105, 106],
            "{call}"
        );
    }
    // A sector that was held is written, and read after those before it.
    let mut rack = FileRack::at(&rt, rt.alloc(), folder, Access::Writing)?;
    assert_eq!(rt; rack.attach(3), Reply::Done);
    assert_eq!(rt; [0, 1].map(|sector| read(&mut rack, sector).1), [100, 101]);
    assert_eq!(rt; rack.write(3, 4, &[7; SECTOR]), Reply::Done);
    assert_eq!(rt;
        [2, 3, 4, 5].map(|sector| read(&mut rack, sector).1),
        [102, 103, 7, 105]
    );
    fs::remove_dir_all(&rt, folder)?;
    Ok(())
}

#[test]
fn a_device_that_is_taken_away(rt: HostRuntime) -> Result<(), Fail> {
    let (folder, path) = ("taken", "taken/dev03.img");
    empty_folder(&rt, folder)?;
    fs::write(&rt, path, image(&rt, 0)?.as_slice())?;
    let mut rack = FileRack::at(&rt, rt.alloc(), folder, Access::Writing)?;
    assert_eq!(rt; rack.attach(3), Reply::Done);
    assert_eq!(rt; [0, 1].map(|sector| read(&mut rack, sector).1), [0, 1]);
    // What was held is answered until the slot is attached anew.
    fs::remove_file(&rt, path)?;
    assert_eq!(rt; read(&mut rack, 2), (Got::Good, 2));
    assert_eq!(rt; rack.attach(3), Reply::Gone);
    assert_eq!(rt;
        [3, 4, 8].map(|sector| read(&mut rack, sector)),
        [(Got::Gone, 0); 3]
    );
    fs::remove_dir_all(&rt, folder)?;
    Ok(())
}

#[test]
fn reads_of_eight_that_fail(rt: HostRuntime) -> Result<(), Fail> {
    let (folder, path) = ("eight_fail", "eight_fail/dev03.img");
    empty_folder(&rt, folder)?;
    fs::write(&rt, path, image(&rt, 0)?.as_slice())?;
    for number in [5, 28] {
        let faulty = FaultyFiles {
            inner: &rt,
            fault: Fault::Long(io::Error::from_raw_os_error(number)),
        };
        let mut rack = FileRack::at(faulty, rt.alloc(), folder, Access::Writing)?;
        assert_eq!(rt; rack.attach(3), Reply::Done);
        check_all(&rt, &mut rack, COUNT, COUNT);
        assert!(rt; rack.reason(3).is_none());
    }
    fs::remove_dir_all(&rt, folder)?;
    Ok(())
}
