// A slot that is pulled before a call of a write, and put back before a call of the opening after it.
use crate::contents::{reads, with_block};
use crate::racks::{OPENING, UP_TO_PLACING, WRITTEN};
use crate::tally::{Extent, Part, Tally};
use stair_calls::{FILLINGS, NOTHING_TOLD, WHOLE, act, call, fenced, restarted, with_blocks};
use stair_engine::Status;
use stair_memrack::{MemRack, What};
use std::alloc::{AllocError, Global};

// How many of a write of a block come before its gates are synced for the last time: four cells are placed and four devices synced,
// and each gate is closed.
const UP_TO_LAST_SYNCS: u32 = OPENING + UP_TO_PLACING + 4 + 4 + 4;

const CALLS_OF_WRITE: u32 = UP_TO_LAST_SYNCS + 4;

// The number of an opening's call that looks at a slot, below which all are there: each is attached, and its two superblocks are read.
fn look_at(slot: u8) -> u32 {
    3 * u32::from(slot)
}

// By a number below eight: a slot, and a way in which it is pulled.
fn pull_by(number: u32) -> (u8, What) {
    let slot = (number % 4) as u8;
    if number < 4 {
        (slot, What::Pull { slot })
    } else {
        (slot, What::PullLosing { slot })
    }
}

// The two calls before which the slot goes and comes, and the number of the slot and the way.
#[derive(Clone, Copy)]
struct Turn {
    pulled: u32,
    back: u32,
    number: u32,
}

impl Turn {
    fn slot(self) -> u8 {
        pull_by(self.number).0
    }

    // Whether the write misses the slot: it calls it once more, at the latest to sync its gate.
    fn is_missed(self) -> bool {
        self.pulled <= UP_TO_LAST_SYNCS + u32::from(self.slot())
    }

    // Whether the opening does: it looked at the slot before.
    fn is_late(self) -> bool {
        self.back > look_at(self.slot())
    }

    // The rack after the write, if the write is done and reported the slot exactly if it missed it. The slot is put back by then or
    // before a call of the next opening.
    fn written(self, alloc: Global) -> Result<Option<MemRack>, AllocError> {
        let (slot, pull) = pull_by(self.number);
        let mut rack = with_blocks(alloc, &[act(self.pulled, pull)])?;
        let came = call(alloc, &mut rack, "write 0 1", &[WRITTEN; 512], WHOLE)?;
        let told = if self.is_missed() {
            fenced(slot)
        } else {
            NOTHING_TOLD
        };
        let is_said = came.put.as_slice() == b"wrote 1 blocks\n".as_slice();
        if came.status != Status::Done || !is_said || came.told != told {
            return Ok(None);
        }
        let back = What::InsertOld { slot, index: 0 };
        Ok(Some(restarted(alloc, rack, &[act(self.back, back)])?))
    }

    // Whether both end as they should: the blocks are read as they were written. The call that missed the slot reports it once, and
    // the slot is down then. If neither missed it, it is live, and another one may be lost.
    fn is_right(self, alloc: Global) -> Result<bool, AllocError> {
        let Some(rack) = self.written(alloc)? else {
            return Ok(false);
        };
        let mut rack = rack;
        let slot = self.slot();
        let all = with_block(&FILLINGS, 0, WRITTEN);
        let is_late = !self.is_missed() && self.is_late();
        let told = if is_late { fenced(slot) } else { NOTHING_TOLD };
        if !reads(alloc, &mut rack, &all, told)? {
            return Ok(false);
        }
        let is_down = is_late || self.is_missed();
        let lines = if is_down {
            DOWN[usize::from(slot % 4)]
        } else {
            ALL_LIVE
        };
        if !shows(alloc, &mut rack, lines)? {
            return Ok(false);
        }
        if is_down {
            let mut rack = restarted(alloc, rack, &[])?;
            return reads(alloc, &mut rack, &all, NOTHING_TOLD);
        }
        let other = slot.wrapping_add(1) % 4;
        let mut rack = restarted(alloc, rack, &[act(0, What::Pull { slot: other })])?;
        reads(alloc, &mut rack, &all, fenced(other))
    }
}

// The lines of the slots in `show`, where all are live,
const ALL_LIVE: &str = "slot 0 live 1\nslot 1 live 1\nslot 2 live 1\nslot 3 live 1\n";

// and where the slot of this number is down.
const DOWN: [&str; 4] = [
    "slot 0 down\nslot 1 live 1\nslot 2 live 1\nslot 3 live 1\n",
    "slot 0 live 1\nslot 1 down\nslot 2 live 1\nslot 3 live 1\n",
    "slot 0 live 1\nslot 1 live 1\nslot 2 down\nslot 3 live 1\n",
    "slot 0 live 1\nslot 1 live 1\nslot 2 live 1\nslot 3 down\n",
];

// Whether `show` ends with these lines.
fn shows(alloc: Global, rack: &mut MemRack, lines: &str) -> Result<bool, AllocError> {
    let came = call(alloc, rack, "show", &[], WHOLE)?;
    Ok(came.status == Status::Done && came.put.ends_with(lines.as_bytes()))
}

/// Tries each pair of calls, each with one slot and way, or with all.
pub(crate) fn returns(alloc: Global, extent: Extent) -> Result<Part, AllocError> {
    let mut tally = Tally::new();
    for pulled in 0..CALLS_OF_WRITE {
        for back in 0..OPENING {
            for number in 0..8 {
                let turn = Turn {
                    pulled,
                    back,
                    number,
                };
                if extent == Extent::Whole || number == (pulled + back) % 8 {
                    tally.judge(turn.is_right(alloc)?, pulled, 8 * back + number);
                }
            }
        }
    }
    Ok(Part::over_cases("pulls in a write and returns in the next opening", tally))
}
