// Open gates that are changed, torn or damaged before the array is opened.
use crate::contents::{holds, with_block};
use crate::racks::{WRITTEN, change, torn, with_open_gates};
use crate::tally::{Extent, Part, Tally};
use stair_calls::{FILLINGS, WHOLE, act, call, restarted, sectors_of};
use stair_engine::Status;
use stair_memrack::{Act, MemRack, What};
use std::alloc::{AllocError, Global};

// The sector of the gate, the last byte of its stripe number, and the byte that has the first eight cells.
const GATE: u32 = 2;

const STRIPE: usize = 15;

const CELLS: usize = 16;

// The first sectors of the bodies of the cells that change with block 0.
const BODIES: [u32; 4] = [3, 6, 9, 10];

// Whether a gate of block 0 that has this other byte at this place is no open gate: by any field but the number of the stripe, which
// may be 0 to 2, and the cells of it, which may be any but none.
fn is_out_of_range(place: usize, byte: u8) -> bool {
    match place {
        STRIPE => byte >= 3,
        CELLS => byte == 0,
        _ => true,
    }
}

// What the byte at a place of the open gate is.
fn byte_at(place: usize) -> u8 {
    let magic = b"STAIRGT1";
    match place {
        0..=7 => magic.get(place).copied().unwrap_or(0),
        8 => 1,
        CELLS => 0x93,
        _ => 0,
    }
}

// Whether the stopped write is undone if this byte is in every gate, and is done if it is in all gates but one.
fn is_closed_by(alloc: Global, place: usize, byte: u8) -> Result<bool, AllocError> {
    let mut rack = with_open_gates(alloc, &[])?;
    let mut is_put = true;
    for slot in 0..3 {
        is_put &= change(&mut rack, slot, GATE, place, byte);
    }
    let rack = restarted(alloc, rack, &[])?;
    let written = with_block(&FILLINGS, 0, WRITTEN);
    if !is_put || !holds(alloc, rack, &written)? {
        return Ok(false);
    }
    let mut rack = with_open_gates(alloc, &[])?;
    for slot in 0..4 {
        is_put &= change(&mut rack, slot, GATE, place, byte);
    }
    let rack = restarted(alloc, rack, &[])?;
    Ok(is_put && holds(alloc, rack, &FILLINGS)?)
}

/// Other bytes at each place of the open gates.
pub(crate) fn changed(alloc: Global, extent: Extent) -> Result<Part, AllocError> {
    let mut tally = Tally::new();
    for place in 0..512 {
        let is_field = place < 18 || place == 143 || place == 144 || place == 511;
        if is_field || extent == Extent::Whole {
            for change in [1, 2, 3, 0x80, 0x93, 0xFF] {
                let byte = byte_at(place) ^ change;
                if is_out_of_range(place, byte) {
                    tally.judge(
                        is_closed_by(alloc, place, byte)?,
                        place as u32,
                        u32::from(byte),
                    );
                }
            }
        }
    }
    Ok(Part::over_cases("places of an open gate", tally))
}

// Damage of a sector of each of the first slots.
fn damaged(alloc: Global, slots: u8, sector: u32) -> Result<Vec<Act>, AllocError> {
    let mut acts = Vec::new(alloc);
    for slot in 0..slots {
        acts.push(act(0, What::Damage { slot, sector }))?;
    }
    Ok(acts)
}

// Whether the array isn't opened, since this sector of the body is lost, and no cell is changed.
fn is_lost(alloc: Global, rack: MemRack, sector: u32) -> Result<bool, AllocError> {
    let mut rack = rack;
    let before = sectors_of(alloc, &mut rack, 11)?;
    for line in ["read 0 15", "write 14 1", "scrub", "replace 2"] {
        let came = call(alloc, &mut rack, line, &[1; 512], WHOLE)?;
        if came.status != (Status::JournalLost { sector }) || !came.put.is_empty() {
            return Ok(false);
        }
    }
    Ok(sectors_of(alloc, &mut rack, 11)? == before)
}

/// Open gates, and sectors of the body, that can't be read on some of the slots, or on all of them.
pub(crate) fn unreadable(alloc: Global) -> Result<Part, AllocError> {
    let mut tally = Tally::new();
    let written = with_block(&FILLINGS, 0, WRITTEN);
    let gates = [(0, GATE), (1, GATE), (2, GATE), (3, GATE)];
    for slots in 0..5u8 {
        let row = u32::from(slots);
        let left = if slots < 4 { written } else { FILLINGS };
        let torn_gates = gates.get(..usize::from(slots)).unwrap_or(&[]);
        let rack = torn(alloc, with_open_gates(alloc, &[])?, torn_gates)?;
        tally.judge(holds(alloc, rack, &left)?, row, 0);
        let rack = with_open_gates(alloc, &damaged(alloc, slots, GATE)?)?;
        tally.judge(holds(alloc, rack, &left)?, row, 1);
        for sector in BODIES {
            let rack = with_open_gates(alloc, &damaged(alloc, slots, sector)?)?;
            let is_right = if slots < 4 {
                holds(alloc, rack, &written)?
            } else {
                is_lost(alloc, rack, sector)?
            };
            tally.judge(is_right, row, sector);
        }
    }
    Ok(Part::over_cases("gates and bodies that can't be read", tally))
}
