ghost use Rattle.std.specs.Prelude.{◌<◌, ◌≤◌};

use crate::check::check_of_blocks;
use crate::fault::Fault;
use crate::varied::varied;
use stair_base::{SECTOR, Slots};
use stair_filerack::{Access, FileRack, Lock};
use stair_image::{SEALED_SECTOR, seal};
use stair_rack::{Got, Rack, Reply, sync_all, write_all};
use stair_tags::seal_all;
use std::alloc::{AllocError, Global};
use std::fs::Files;

/// How many sectors a round seals, writes or reads.
const SECTORS: u16 = 64;

/// Seals sectors that vary under their numbers, so many times, and returns a check of them.
pub(crate) fn check_of_sealing(alloc: Global, rounds: u32) -> Result<u64, AllocError> {
    let sectors = varied_sectors(alloc)?;
    let mut sealed = vec![in alloc; [0; SEALED_SECTOR]; usize::from(SECTORS)]?;
    for _round in 0..rounds {
        let mut number = 0;
        for (into, sector) in sealed.iter_mut().zip(&sectors) {
            *into = seal(number, sector);
            number = number.wrapping_add(1);
        }
    }
    Ok(check_of_blocks(&sealed))
}

/// Does the same eight at a time.
pub(crate) fn check_of_sealing_by_eight(alloc: Global, rounds: u32) -> Result<u64, AllocError> {
    let sectors = varied_sectors(alloc)?;
    let mut sealed = vec![in alloc; [0; SEALED_SECTOR]; usize::from(SECTORS)]?;
    for _round in 0..rounds {
        let mut numbers = [0, 1, 2, 3, 4, 5, 6, 7];
        for (into, eight) in sealed
            .as_chunks_mut()
            .0
            .iter_mut()
            .zip(sectors.as_chunks().0)
        {
            *into = seal_all(&numbers, eight);
            for number in &mut numbers {
                *number = number.wrapping_add(8);
            }
        }
    }
    Ok(check_of_blocks(&sealed))
}

/// Writes sectors that vary to the image file of slot 0 in the current folder, so many times, and syncs it. Returns a check of
/// what was written.
pub(crate) fn check_of_writing<F: Files + Drop>(
    rt: F,
    alloc: Global,
    rounds: u32,
) -> Result<u64, Fault>
where
    F::File: Lock,
{
    let sectors = varied_sectors(alloc)?;
    let mut rack = rack_here(rt, alloc)?;
    write_sectors(&mut rack, &sectors, rounds)?;
    Ok(check_of_blocks(&sectors))
}

/// Attaches slot 0, writes these sectors to it so many times, and syncs it.
fn write_sectors<R: Rack>(
    rack: &mut R,
    sectors: &[[u8; SECTOR]],
    rounds: u32,
) -> Result<(), Fault> {
    let _ = attach_first(rack, 1)?;
    for _round in 0..rounds {
        let mut number = 0;
        for sector in sectors {
            if rack.write(0, number, sector) == Reply::Gone {
                return Err(Fault::Image);
            }
            number = number.wrapping_add(1);
        }
    }
    if rack.sync(0) == Reply::Gone {
        return Err(Fault::Image);
    }
    Ok(())
}

/// Reads the sectors of that file so many times, and returns a check of what was read.
pub(crate) fn check_of_reading<F: Files + Drop>(
    rt: F,
    alloc: Global,
    rounds: u32,
) -> Result<u64, Fault>
where
    F::File: Lock,
{
    let mut sectors = vec![in alloc; [0; SECTOR]; usize::from(SECTORS)]?;
    let mut rack = rack_here(rt, alloc)?;
    read_sectors(&mut rack, &mut sectors, rounds)?;
    Ok(check_of_blocks(&sectors))
}

/// Attaches slot 0, and reads as many of its sectors so many times.
fn read_sectors<R: Rack>(
    rack: &mut R,
    sectors: &mut [[u8; SECTOR]],
    rounds: u32,
) -> Result<(), Fault> {
    let _ = attach_first(rack, 1)?;
    for _round in 0..rounds {
        let mut number = 0;
        for sector in sectors.iter_mut() {
            if rack.read(0, number, sector) != Got::Good {
                return Err(Fault::Image);
            }
            number = number.wrapping_add(1);
        }
    }
    Ok(())
}

/// Writes one sector to the image files of so many slots in the current folder, so many times, each time under the next
/// number, and syncs them. Returns a check of what the last slot has.
pub(crate) fn check_of_writing_all<F: Files + Drop>(
    rt: F,
    alloc: Global,
    devices: u8,
    rounds: u32,
) -> Result<u64, Fault>
where
    F::File: Lock,
    requires some { 0 < devices }
    requires within { devices ≤ 32 }
{
    let mut rack = rack_here(rt, alloc)?;
    write_to_all(&mut rack, devices, rounds)
}

/// The same on this rack.
fn write_to_all<R: Rack>(rack: &mut R, devices: u8, rounds: u32) -> Result<u64, Fault>
    requires some { 0 < devices }
    requires within { devices ≤ 32 }
{
    let live = attach_first(rack, devices)?;
    let mut sector = varied(0);
    let mut number = 0;
    for _round in 0..rounds {
        number = if number < u32::from(SECTORS) - 1 {
            number + 1
        } else {
            0
        };
        if !is_written(rack, live, number, &sector) {
            return Err(Fault::Image);
        }
    }
    if rounds > 0 && !is_kept(rack, live, devices - 1, number, &mut sector) {
        return Err(Fault::Image);
    }
    Ok(check_of_blocks(&[sector]))
}

/// Returns whether this sector was written under this number to all of these slots.
fn is_written<R: Rack>(rack: &mut R, live: Slots, number: u32, sector: &[u8; SECTOR]) -> bool {
    write_all(rack, live, number, sector).count() == 0
}

/// Returns whether all of these slots were synced, and then the sector of this number was read of that slot.
fn is_kept<R: Rack>(
    rack: &mut R,
    live: Slots,
    slot: u8,
    number: u32,
    into: &mut [u8; SECTOR],
) -> bool
    requires { slot < 32 }
{
    sync_all(rack, live).count() == 0 && rack.read(slot, number, into) == Got::Good
}

/// Attaches so many slots, and returns them.
pub(crate) fn attach_first<R: Rack>(rack: &mut R, devices: u8) -> Result<Slots, Fault>
    requires { devices ≤ 32 }
{
    let mut live = Slots::empty();
    for slot in 0..devices {
        if rack.attach(slot) == Reply::Gone {
            return Err(Fault::Image);
        }
        live.add(slot);
    }
    Ok(live)
}

/// A rack over the current folder, to write.
pub(crate) fn rack_here<F: Files + Drop>(rt: F, alloc: Global) -> Result<FileRack<F>, AllocError>
where
    F::File: Lock,
{
    FileRack::at(rt, alloc, ".", Access::Writing)
}

/// The sectors that are written, in order.
fn varied_sectors(alloc: Global) -> Result<Vec<[u8; SECTOR]>, AllocError> {
    let mut sectors = Vec::with_capacity(alloc, usize::from(SECTORS))?;
    for number in 0..SECTORS {
        sectors.push(varied(number))?;
    }
    Ok(sectors)
}
