// Calls that are stopped before each of their calls of the rack, and what each crash leaves then.
use crate::contents::{Fillings, NO_VOLUME, ONE_VOLUME, read_all, reads, with_block, with_first};
use crate::racks::{WRITTEN, blank_device, with_open_gates, with_table};
use crate::script::{contents_after, script};
use crate::tally::{Part, Tally};
use stair_calls::{
    CALLS, Came, FILLINGS, NOTHING_TOLD, WHOLE, act, blocks_of, call, fenced, restarted,
    sectors_of, with_blocks,
};
use stair_engine::Status;
use stair_memrack::{MemRack, What};
use std::alloc::{AllocError, Global};

/// What is stopped.
#[derive(Clone, Copy, PartialEq, Eq)]
pub(crate) enum Work {
    /// A write of one block.
    Block,
    /// A write of all blocks, of three stripes.
    AllBlocks,
    /// A scrub of an array two cells of which are bad.
    Scrub,
    /// A replacement, with the rebuild.
    Replacement,
    /// A frozen mark.
    Freeze,
    /// An opening of an array all of whose gates are open.
    Opening,
    /// Ten lines of a script that write and read.
    Script,
    /// A volume of ten blocks that is made.
    Volume,
}

impl Work {
    pub(crate) const EACH: [Work; 8] = [
        Work::Block,
        Work::AllBlocks,
        Work::Scrub,
        Work::Replacement,
        Work::Freeze,
        Work::Opening,
        Work::Script,
        Work::Volume,
    ];

    fn name(self) -> &'static str {
        match self {
            Work::Block => "stops in a write of a block",
            Work::AllBlocks => "stops in a write of all blocks",
            Work::Scrub => "stops in a scrub of two bad cells",
            Work::Replacement => "stops in a replacement",
            Work::Freeze => "stops in a freeze",
            Work::Opening => "stops in an opening with open gates",
            Work::Script => "stops in a script",
            Work::Volume => "stops in a making of a volume",
        }
    }

    fn line(self) -> &'static str {
        match self {
            Work::Block => "write 0 1",
            Work::AllBlocks => "write 0 15",
            Work::Scrub => "scrub",
            Work::Replacement => "replace 2",
            Work::Freeze => "freeze",
            Work::Opening => "read 0 0",
            Work::Script => "run",
            Work::Volume => "vmake a 10",
        }
    }

    fn input(self, alloc: Global) -> Result<Vec<u8>, AllocError> {
        match self {
            Work::Block => blocks_of(alloc, &[WRITTEN]),
            Work::AllBlocks => blocks_of(alloc, &[WRITTEN; 15]),
            Work::Script => script(alloc),
            _ => Ok(Vec::new(alloc)),
        }
    }

    // The rack before it, which stops before this call.
    fn rack(self, alloc: Global, at: u32) -> Result<MemRack, AllocError> {
        let stop = act(at, What::Stop);
        match self {
            Work::Scrub => {
                let first = What::Damage {
                    slot: 0,
                    sector: 11,
                };
                let second = What::Damage {
                    slot: 1,
                    sector: 12,
                };
                with_blocks(alloc, &[act(0, first), act(0, second), stop])
            }
            Work::Replacement => {
                let [pull, insert] = blank_device(BLANK);
                with_blocks(alloc, &[pull, insert, stop])
            }
            Work::Opening => with_open_gates(alloc, &[stop]),
            Work::Volume => with_table(alloc, &[stop]),
            _ => with_blocks(alloc, &[stop]),
        }
    }

    // The rack after the command, and its result, if it stops before this call.
    fn stopped(self, alloc: Global, at: u32) -> Result<(MemRack, Came), AllocError> {
        let mut rack = self.rack(alloc, at)?;
        let input = self.input(alloc)?;
        let came = call(alloc, &mut rack, self.line(), &input, WHOLE)?;
        Ok((rack, came))
    }

    // What the blocks may hold after it.
    fn contents(self, alloc: Global, came: &Came) -> Result<Vec<Fillings>, AllocError> {
        let mut contents = Vec::new(alloc);
        match self {
            Work::Block => {
                contents.push(FILLINGS)?;
                contents.push(with_block(&FILLINGS, 0, WRITTEN))?;
            }
            Work::AllBlocks => {
                // a stripe is one step
                for count in [0, 5, 10, 15] {
                    contents.push(with_first(&FILLINGS, count, WRITTEN))?;
                }
            }
            Work::Opening => contents.push(with_block(&FILLINGS, 0, WRITTEN))?,
            Work::Script => contents_after(alloc, &came.put, &mut contents)?,
            Work::Volume => {
                // the zeros of a stripe are one step, and the table is the last one
                for count in [1, 5, 10, 11] {
                    contents.push(with_block(&with_first(&FILLINGS, count, 0), 0, NO_VOLUME))?;
                }
                contents.push(with_block(&with_first(&FILLINGS, 11, 0), 0, ONE_VOLUME))?;
            }
            Work::Scrub | Work::Replacement | Work::Freeze => contents.push(FILLINGS)?,
        }
        Ok(contents)
    }

    // What a crash leaves by these picks where it stops before this call.
    fn left(self, alloc: Global, at: u32, picks: &[u32]) -> Result<Left, AllocError> {
        let (rack, came) = self.stopped(alloc, at)?;
        let contents = self.contents(alloc, &came)?;
        let mut rack = rack.after_crash(alloc, picks, &[], CALLS)?;
        let sectors = sectors_of(alloc, &mut rack, 0)?;
        Ok(Left {
            was_refused: came.status != Status::Done,
            rack,
            contents,
            sectors,
        })
    }

    // The slot that is lost in the end: any, unless cells of two devices, or one of another device, can be missing then.
    fn lost_slot(self, at: u32) -> u8 {
        match self {
            Work::Scrub => 0,
            Work::Replacement => BLANK,
            _ => (at % 4) as u8,
        }
    }

    // Whether an image is as it should be: its blocks are read, read again after another crash, and read again after a device is lost.
    fn is_settled(self, alloc: Global, left: Left, at: u32) -> Result<bool, AllocError> {
        let mut rack = left.rack;
        let Some(first) = read_all(alloc, &mut rack)? else {
            return Ok(false);
        };
        let mut rack = restarted(alloc, rack, &[])?;
        if !reads(alloc, &mut rack, &first.fillings, NOTHING_TOLD)? {
            return Ok(false);
        }
        let slot = self.lost_slot(at);
        let mut rack = restarted(alloc, rack, &[act(0, What::Pull { slot })])?;
        let Some(last) = read_all(alloc, &mut rack)? else {
            return Ok(false);
        };
        // the slot of a device that was to be replaced may be left out before
        let is_told = if self == Work::Replacement {
            last.told == NOTHING_TOLD || last.told == fenced(slot)
        } else {
            first.told == NOTHING_TOLD && last.told == fenced(slot)
        };
        let is_read = left.contents.contains(&first.fillings) && last.fillings == first.fillings;
        Ok(left.was_refused && is_read && is_told)
    }

    // Tries each image where it stops before this call.
    fn try_stop(self, alloc: Global, at: u32, tally: &mut Tally) -> Result<(), AllocError> {
        let old = self.left(alloc, at, &[])?;
        let newest = self.left(alloc, at, &[NEWEST; PENDING])?;
        let torn = self.left(alloc, at, &[TORN; PENDING])?;
        let mut others = count_others(&old.sectors, &newest.sectors);
        if others > 0 {
            for alone in 0..PENDING {
                if others == 0 {
                    break;
                }
                let mut picks = [0; PENDING];
                picks[alone] = NEWEST;
                let left = self.left(alloc, at, &picks)?;
                if left.sectors != old.sectors {
                    others -= 1;
                    let is_settled = self.is_settled(alloc, left, at)?;
                    tally.judge(is_settled, at, alone as u32);
                }
            }
            tally.judge(others == 0, at, ALL_ALONE);
            tally.judge(self.is_settled(alloc, newest, at)?, at, ALL_NEWEST);
        }
        if torn.sectors != old.sectors {
            tally.judge(self.is_settled(alloc, torn, at)?, at, ALL_TORN);
        }
        tally.judge(self.is_settled(alloc, old, at)?, at, ALL_OLD);
        Ok(())
    }
}

// The slot of the replacement.
const BLANK: u8 = 2;

// How many sectors may be pending at most: all cells of a stripe in the bodies of four devices.
const PENDING: usize = 32;

// The pick of the one content that was written to a sector since it was synced, and of a torn one.
const NEWEST: u32 = 1;

const TORN: u32 = 9;

// Cases by their numbers: smaller numbers are sectors of which one alone is newest. The last case is that all of those were found.
const ALL_OLD: u32 = 1000;

const ALL_NEWEST: u32 = 1001;

const ALL_TORN: u32 = 1002;

const ALL_ALONE: u32 = 1003;

// What a crash left.
#[derive(Drop)]
struct Left {
    was_refused: bool,
    rack: MemRack,
    contents: Vec<Fillings>,
    sectors: Vec<Option<[u8; 512]>>,
}

// How many sectors are others.
fn count_others(these: &[Option<[u8; 512]>], those: &[Option<[u8; 512]>]) -> usize {
    let mut others: usize = 0;
    for (this, that) in these.iter().zip(those.iter()) {
        if this != that {
            others = others.saturating_add(1);
        }
    }
    others
}

/// Tries each stop of this work.
pub(crate) fn stops(alloc: Global, work: Work) -> Result<Part, AllocError> {
    let mut tally = Tally::new();
    let (rack, came) = work.stopped(alloc, u32::MAX)?;
    let calls = rack.made();
    tally.judge(came.status == Status::Done, calls, 0);
    for at in 0..calls {
        work.try_stop(alloc, at, &mut tally)?;
    }
    Ok(Part::over_calls(work.name(), calls, tally))
}
