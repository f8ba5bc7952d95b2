// What the blocks of the array of four devices hold.
use crate::racks::table;
use stair_calls::{NOTHING_TOLD, Told, WHOLE, call, restarted};
use stair_engine::Status;
use stair_memrack::MemRack;
use std::alloc::{AllocError, Global};

/// What fills each of the 15 blocks.
pub(crate) type Fillings = [u8; 15];

/// What represents a table without volumes, and for one with a volume, in the place of what fills a block.
pub(crate) const NO_VOLUME: u8 = 0xF0;

pub(crate) const ONE_VOLUME: u8 = 0xF1;

// What fills a block, or represents it.
fn filling_of(block: &[u8]) -> Option<u8> {
    if block == table(false).as_slice() {
        return Some(NO_VOLUME);
    }
    if block == table(true).as_slice() {
        return Some(ONE_VOLUME);
    }
    let first = *block.first()?;
    block.iter().all(|byte| *byte == first).then_some(first)
}

/// Returns what fills blocks that were put out. Returns `None` if there aren't 15, or one is no table and isn't filled with one byte.
pub(crate) fn fillings_of(put: &[u8]) -> Option<Fillings> {
    if put.len() != 15 * 512 {
        return None;
    }
    let mut fillings = [0; 15];
    for (block, filling) in fillings.iter_mut().enumerate() {
        *filling = filling_of(put.get(block * 512..(block + 1) * 512)?)?;
    }
    Some(fillings)
}

/// The same fillings, with this one of a block.
pub(crate) fn with_block(fillings: &Fillings, block: usize, filling: u8) -> Fillings {
    let mut fillings = *fillings;
    if let Some(place) = fillings.get_mut(block) {
        *place = filling;
    }
    fillings
}

/// The same fillings, with this one of so many blocks from the first one on.
pub(crate) fn with_first(fillings: &Fillings, count: usize, filling: u8) -> Fillings {
    let mut fillings = *fillings;
    for place in fillings.iter_mut().take(count) {
        *place = filling;
    }
    fillings
}

/// What a call that read all blocks put out and reported.
#[derive(Clone, Copy, PartialEq, Eq)]
pub(crate) struct Blocks {
    pub(crate) fillings: Fillings,
    pub(crate) told: Told,
}

impl Blocks {
    pub(crate) fn new(fillings: &Fillings, told: Told) -> Blocks {
        let fillings = *fillings;
        Blocks { fillings, told }
    }
}

/// Reads all blocks; returns `None` if that isn't done.
pub(crate) fn read_all(alloc: Global, rack: &mut MemRack) -> Result<Option<Blocks>, AllocError> {
    let came = call(alloc, rack, "read 0 15", &[], WHOLE)?;
    if came.status != Status::Done {
        return Ok(None);
    }
    Ok(fillings_of(&came.put).map(|fillings| Blocks::new(&fillings, came.told)))
}

/// Returns whether all blocks are read, are these, and exactly this is reported.
pub(crate) fn reads(
    alloc: Global,
    rack: &mut MemRack,
    fillings: &Fillings,
    told: Told,
) -> Result<bool, AllocError> {
    Ok(read_all(alloc, rack)? == Some(Blocks::new(fillings, told)))
}

/// Returns whether all blocks are these, also in a second call after a crash, and nothing is reported.
pub(crate) fn holds(alloc: Global, rack: MemRack, fillings: &Fillings) -> Result<bool, AllocError> {
    let mut rack = rack;
    if !reads(alloc, &mut rack, fillings, NOTHING_TOLD)? {
        return Ok(false);
    }
    let mut rack = restarted(alloc, rack, &[])?;
    reads(alloc, &mut rack, fillings, NOTHING_TOLD)
}
