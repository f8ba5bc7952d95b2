// Racks that tables begin with.
use stair_calls::{CALLS, WHOLE, act, call, restarted, with_blocks};
use stair_memrack::{Act, MemRack, What};
use stair_rack::{Got, Rack};
use std::alloc::{AllocError, Global};

/// What fills a block that is written.
pub(crate) const WRITTEN: u8 = 0xA0;

/// How many calls an opening of the array of four devices makes: 32 slots are attached, and two superblocks of each of four are read;
/// each gets one superblock with a draw, and one of the epoch, both synced; each gate is read, closed and synced.
pub(crate) const OPENING: u32 = 32 + 8 + 16 + 4 + 8;

/// How many of a write of a block come before its cells are placed: four cells are read, four devices get them in their bodies, which
/// are synced, and then an open gate, which is synced.
pub(crate) const UP_TO_PLACING: u32 = 4 + 16 + 4 + 8;

/// A slot's medium is pulled, and a blank one put in.
pub(crate) fn blank_device(slot: u8) -> [Act; 2] {
    let insert = What::InsertBlank { slot, sectors: 17 };
    [act(0, What::Pull { slot }), act(0, insert)]
}

/// The array of four devices, in which a write of block 0 was stopped after all gates were opened and before any cell was written.
/// These acts happen to it then.
pub(crate) fn with_open_gates(alloc: Global, acts: &[Act]) -> Result<MemRack, AllocError> {
    let mut rack = with_blocks(alloc, &[act(OPENING + UP_TO_PLACING, What::Stop)])?;
    let _ = call(alloc, &mut rack, "write 0 1", &[WRITTEN; 512], WHOLE)?;
    rack.after_crash(alloc, &[], acts, CALLS)
}

/// The bytes of a table without volumes, or with the volume `a` of ten blocks.
pub(crate) fn table(has_volume: bool) -> [u8; 512] {
    let mut bytes = [0; 512];
    for (place, byte) in bytes.iter_mut().zip(b"STAIRVT1") {
        *place = *byte;
    }
    if has_volume {
        bytes[8] = 1;
        // the length of its name, the name, its first block, and how many it has
        bytes[32] = 1;
        bytes[33] = b'a';
        bytes[59] = 1;
        bytes[63] = 10;
    }
    bytes
}

/// The array of four devices with a table without volumes, all of whose other blocks were written, to which this happens.
pub(crate) fn with_table(alloc: Global, acts: &[Act]) -> Result<MemRack, AllocError> {
    let mut rack = with_blocks(alloc, &[])?;
    let _ = call(alloc, &mut rack, "write 0 1", &table(false), WHOLE)?;
    restarted(alloc, rack, acts)
}

/// Writes this byte at a place of a sector, and syncs. Returns false if the sector can't be read.
pub(crate) fn change(rack: &mut MemRack, slot: u8, sector: u32, place: usize, byte: u8) -> bool {
    let slot = slot.min(31);
    rack.attach(slot);
    let mut bytes = [0; 512];
    if rack.read(slot, sector, &mut bytes) != Got::Good {
        return false;
    }
    if let Some(old) = bytes.get_mut(place) {
        *old = byte;
    }
    rack.write(slot, sector, &bytes);
    rack.sync(slot);
    true
}

/// What is left where these sectors are torn.
pub(crate) fn torn(
    alloc: Global,
    rack: MemRack,
    sectors: &[(u8, u32)],
) -> Result<MemRack, AllocError> {
    let mut rack = rack;
    for (slot, sector) in sectors {
        let slot = (*slot).min(31);
        rack.attach(slot);
        rack.write(slot, *sector, &[0x77; 512]);
    }
    restarted(alloc, rack, &[])
}
