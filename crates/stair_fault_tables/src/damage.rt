// A write before each of whose calls a cell is damaged or a device pulled.
use crate::contents::{read_all, reads, with_block};
use crate::racks::WRITTEN;
use crate::tally::{Part, Tally};
use stair_calls::{FILLINGS, NOTHING_TOLD, Told, WHOLE, act, call, fenced, restarted, with_blocks};
use stair_engine::Status;
use stair_memrack::What;
use std::alloc::{AllocError, Global};

// What may happen: one of the four cells that change with block 0 is damaged (its own, the parity of its row, the global parity and
// the parity of that row), or a slot is pulled, whose medium settles as reads find it, or as at its last sync.
const HAPPENINGS: [What; 12] = [
    What::Damage {
        slot: 0,
        sector: 11,
    },
    What::Damage {
        slot: 3,
        sector: 11,
    },
    What::Damage {
        slot: 2,
        sector: 12,
    },
    What::Damage {
        slot: 3,
        sector: 12,
    },
    What::Pull { slot: 0 },
    What::PullLosing { slot: 0 },
    What::Pull { slot: 1 },
    What::PullLosing { slot: 1 },
    What::Pull { slot: 2 },
    What::PullLosing { slot: 2 },
    What::Pull { slot: 3 },
    What::PullLosing { slot: 3 },
];

// What three calls reported in all, of which at most one reported anything.
fn told_once(told: [Told; 3]) -> Option<Told> {
    let mut once = NOTHING_TOLD;
    for one in told {
        if one != NOTHING_TOLD {
            if once != NOTHING_TOLD {
                return None;
            }
            once = one;
        }
    }
    Some(once)
}

// Whether the write is done all the same, and the blocks are read in two calls after it. A pulled slot is left out once.
fn is_done(alloc: Global, at: u32, what: What) -> Result<bool, AllocError> {
    let mut rack = with_blocks(alloc, &[act(at, what)])?;
    let came = call(alloc, &mut rack, "write 0 1", &[WRITTEN; 512], WHOLE)?;
    if came.status != Status::Done || came.put.as_slice() != b"wrote 1 blocks\n".as_slice() {
        return Ok(false);
    }
    let mut rack = restarted(alloc, rack, &[])?;
    let Some(first) = read_all(alloc, &mut rack)? else {
        return Ok(false);
    };
    let mut rack = restarted(alloc, rack, &[])?;
    let Some(second) = read_all(alloc, &mut rack)? else {
        return Ok(false);
    };
    let all = with_block(&FILLINGS, 0, WRITTEN);
    if first.fillings != all || second.fillings != all {
        return Ok(false);
    }
    let once = told_once([came.told, first.told, second.told]);
    match what {
        What::Pull { slot } | What::PullLosing { slot } => Ok(once == Some(fenced(slot))),
        _ => {
            // in addition to a damaged cell a whole device may be lost
            let mut rack = restarted(alloc, rack, &[act(0, What::Pull { slot: 1 })])?;
            Ok(once == Some(NOTHING_TOLD) && reads(alloc, &mut rack, &all, fenced(1))?)
        }
    }
}

/// Tries each of what may happen before each call of a write of a block.
pub(crate) fn damage(alloc: Global) -> Result<Part, AllocError> {
    let mut tally = Tally::new();
    let mut rack = with_blocks(alloc, &[])?;
    let _ = call(alloc, &mut rack, "write 0 1", &[WRITTEN; 512], WHOLE)?;
    let calls = rack.made();
    for at in 0..calls {
        for number in 0..12 {
            let is_right = is_done(alloc, at, HAPPENINGS[number as usize])?;
            tally.judge(is_right, at, number);
        }
    }
    Ok(Part::over_calls("damage and pulls in a write of a block", calls, tally))
}
