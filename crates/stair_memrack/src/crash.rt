// What a crash leaves of the slots.
ghost use Rattle.std.specs.Prelude.{◌≡◌, ◌<◌, ◌≤◌, ◌+◌, ◌*◌, ◌-◌, ◌^◌, length, map, reverse, IfOk, cond, slice_get, slice_index, vec_len};
ghost use Rattle.stair_memrack.specs.Disk.{stored_at};
ghost use Rattle.stair_memrack.specs.Place.{size_of};
ghost use Rattle.stair_memrack.specs.Picks.{count_below};
ghost use Rattle.stair_memrack.specs.Left.{
  writes_of,
  torn_over,
  has_pending,
  left_pending,
  left_sector,
  pending_at,
  pending_in,
  pending_of,
  pending_below,
  now_of,
  AreLeft,
  IsMediumLeft,
  IsLeft,
  SlotsAreLeft,
};

use crate::disk::{Cells, Disk, StoredCell, StoredSector};
use crate::origin::Origin;
use crate::place::Place;
use crate::record::Recorded;
use std::alloc::{AllocError, Global};

/// What a crash leaves of the 32 slots after the calls of this record: by the pick for each sector with pending writes, by
/// slot and then by sector.
pub(crate) fn left_of_slots(
    alloc: Global,
    places: &Vec<Place>,
    log: &Vec<Recorded>,
    picks: &[u32],
) -> Result<Vec<Origin>, AllocError>
    requires { vec_len places.now ≡ 32 }
    ensures { IfOk result (λ v. SlotsAreLeft 32 (writes_of (reverse log.now.items)) picks.now
        places.now.items v.items) }
{
    let mut made = Vec::with_capacity(alloc, 32)?;
    let mut before = 0;
    for slot in 0..32u8 {
        let place = &places[slot as usize];
        let (origin, more) = left_of_slot(alloc, place, slot, log, picks, before)?;
        made.push(origin)?;
        before = more;
    }
    Ok(made)
}

// What it leaves of a slot, before which lie so many sectors with pending writes; and how many lie before the next one.
fn left_of_slot(
    alloc: Global,
    place: &Place,
    slot: u8,
    log: &Vec<Recorded>,
    picks: &[u32],
    before: usize,
) -> Result<(Origin, usize), AllocError>
    requires { before < 2 ^ 40 }
    ensures left { IfOk result (λ r.
        IsLeft (writes_of (reverse log.now.items) slot) picks.now before
        place.now r.0) }
    ensures next { IfOk result (λ r. r.1 ≡ before + pending_of place.now) }
    ensures few { IfOk result (λ r. r.1 ≤ before + 2 ^ 32) }
{
    let (medium, next) = left_of_medium(alloc, place.medium(), slot, log, picks, before)?;
    let removed = settled(alloc, place.removed())?;
    Ok((Origin::new(medium, removed), next))
}

// What it leaves of a slot's medium.
fn left_of_medium(
    alloc: Global,
    medium: &Option<Disk>,
    slot: u8,
    log: &Vec<Recorded>,
    picks: &[u32],
    before: usize,
) -> Result<(Option<Cells>, usize), AllocError>
    requires { before < 2 ^ 40 }
    ensures left { IfOk result (λ r. IsMediumLeft (writes_of (reverse log.now.items) slot) picks.now
        before medium.now r.0) }
    ensures next { IfOk result (λ r. r.1 ≡
        before + count_below (pending_in medium.now) (size_of medium.now)) }
    ensures few { IfOk result (λ r. r.1 ≤ before + 2 ^ 32) }
{
    match medium {
        Some(disk) => {
            let (cells, next) = left_of_disk(alloc, disk, slot, log, picks, before)?;
            Ok((Some(cells), next))
        }
        None => Ok((None, before)),
    }
}

// What it leaves of a medium.
fn left_of_disk(
    alloc: Global,
    disk: &Disk,
    slot: u8,
    log: &Vec<Recorded>,
    picks: &[u32],
    before: usize,
) -> Result<(Cells, usize), AllocError>
    requires { before < 2 ^ 40 }
    ensures left { IfOk result (λ r.
        AreLeft (writes_of (reverse log.now.items) slot) picks.now before
        (length disk.now) disk.now r.0) }
    ensures next { IfOk result (λ r. r.1 ≡
        before + count_below (pending_at disk.now) (length disk.now)) }
    ensures few { IfOk result (λ r. r.1 ≤ before + 2 ^ 32) }
{
    let size = disk.size();
    let mut cells = Vec::with_capacity(alloc, size as usize)?;
    let mut next = before;
    for index in 0..size {
        let (cell, after) = left_of_sector(disk.sector(index), picks, next, log, slot, index);
        cells.push(cell)?;
        next = after;
    }
    Ok((Cells::new(cells), next))
}

// What it leaves of a sector, before which lie so many with pending writes; and how many lie before the next one.
fn left_of_sector(
    sector: StoredSector,
    picks: &[u32],
    before: usize,
    log: &Vec<Recorded>,
    slot: u8,
    index: u32,
) -> (StoredCell, usize)
    requires { before < 2 ^ 41 }
    ensures left { result.0 ≡ left_sector (slice_index picks.now before) sector
        (writes_of (reverse log.now.items) slot index) }
    ensures next { result.1 ≡ before + cond (has_pending sector) 1 0 }
{
    if sector.pending == 0 {
        return (sector.base, before);
    }
    let pick = pick_at(picks, before);
    (picked(sector, pick, log, slot, index), before + 1)
}

// The pick of this number. A missing one is 0.
fn pick_at(picks: &[u32], number: usize) -> u32
    ensures { result ≡ slice_index picks.now number }
{
    if number < picks.len() {
        picks[number]
    } else {
        0
    }
}

// What the pick leaves of a sector with pending writes.
fn picked(sector: StoredSector, pick: u32, log: &Vec<Recorded>, slot: u8, index: u32) -> StoredCell
    ensures { result ≡ left_pending pick sector (writes_of (reverse log.now.items) slot index) }
{
    if pick == 0 {
        return sector.base;
    }
    if pick > sector.pending {
        return sector.base.torn_over();
    }
    match written(log, slot, index, sector.pending - pick) {
        Some(bytes) => StoredCell::Good(bytes),
        None => sector.base.torn_over(),
    }
}

// The bytes of a write that was done to the sector, counted from the newest one, which has the number 0.
fn written(log: &Vec<Recorded>, slot: u8, sector: u32, number: u32) -> Option<[u8; 512]>
    ensures { result ≡ slice_get (writes_of (reverse log.now.items) slot sector) number }
{
    let mut left = number;
    for index in 0..log.len() {
        let call = &log[log.len() - 1 - index];
        match call.wrote_on(slot, sector) {
            Some(bytes) => {
                if left == 0 {
                    return Some(bytes);
                }
                left -= 1;
            }
            None => {}
        }
    }
    None
}

// The media of a drawer as reads find them.
fn settled(alloc: Global, drawer: &Vec<Disk>) -> Result<Vec<Cells>, AllocError>
    ensures { IfOk result (λ v. v.items ≡ map (map now_of) drawer.now.items) }
{
    let mut media = Vec::with_capacity(alloc, drawer.len())?;
    for disk in drawer.iter() {
        media.push(disk.now(alloc)?)?;
    }
    Ok(media)
}
