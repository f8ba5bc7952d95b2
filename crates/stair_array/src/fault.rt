ghost use Rattle.std.specs.Prelude.{◌≡◌};
ghost use Rattle.stair_array.specs.Faults.{
  admission_fault,
  array_fault,
  rebuild_fault,
  recover_fault,
  replace_fault,
};

use stair_member::{AdmitFault, FenceFault, Why};
use stair_super::Mark;

/// Why [`create`](crate::create) made no array.
#[derive(Clone, Copy, Debug, PartialEq, Eq)]
pub enum CreateFault {
    /// A slot of the array is gone.
    Gone(u8),
    /// The device of a slot has too few sectors.
    SmallDevice { slot: u8, has: u32, needs: u32 },
    /// The medium of a slot has a superblock, of whatever array.
    AlreadyArray(u8),
}

/// Why an array isn't opened.
#[derive(Clone, Copy, Debug, PartialEq, Eq)]
pub enum RecoverFault {
    /// There is no memory for a stripe. No call was made.
    Memory,
    /// As in [`FenceFault`].
    TooFew([Why; 32]),
    /// As in [`FenceFault`].
    EpochsSpent,
    /// A redo was begun, and this sector of its body couldn't be read on any live slot.
    JournalLost { sector: u32 },
}

/// Why a call of an array is refused.
#[derive(Clone, Copy, Debug, PartialEq, Eq)]
pub enum ArrayFault {
    /// The number `asked` is at or past the `limit`.
    OutOfRange { asked: u64, limit: u64 },
    /// The array is frozen: its blocks aren't written.
    Frozen,
    /// So many cells of each slot's chunk of this stripe couldn't be had, and they aren't covered.
    Lost { stripe: u32, counts: [u8; 32] },
    /// As in [`FenceFault`]. The array is stopped.
    TooFew([Why; 32]),
    /// As in [`FenceFault`]. The array is stopped.
    EpochsSpent,
}

/// Why the device in a slot isn't admitted.
#[derive(Clone, Copy, Debug, PartialEq, Eq)]
pub enum ReplaceFault {
    /// The slot `asked` is at or past the `limit`, the number of slots of the array.
    OutOfRange { asked: u64, limit: u64 },
    /// The slot isn't Down: this is its mark.
    SlotBusy { slot: u8, mark: Mark },
    /// The slot was gone. It is Down, as it was.
    Gone(u8),
    /// Its device has too few sectors.
    SmallDevice { slot: u8, has: u32, needs: u32 },
    /// Its medium has a superblock of another array.
    AlreadyArray(u8),
    /// As in [`FenceFault`]. The array is stopped.
    TooFew([Why; 32]),
    /// As in [`FenceFault`]. The array is stopped.
    EpochsSpent,
}

/// Why a step of a rebuild isn't made.
#[derive(Clone, Copy, Debug, PartialEq, Eq)]
pub enum RebuildFault {
    /// So many cells of each slot's chunk of this stripe couldn't be had, and they aren't covered. The array goes on.
    Lost { stripe: u32, counts: [u8; 32] },
    /// As in [`FenceFault`]. The array is stopped.
    TooFew([Why; 32]),
    /// As in [`FenceFault`]. The array is stopped.
    EpochsSpent,
}

/// What a step of a rebuild came to.
#[derive(Clone, Copy, Debug, PartialEq, Eq)]
pub enum Progress {
    /// No slot is rebuilt.
    Nothing,
    /// The slot's chunk of this stripe was written, and another one comes next.
    Chunk { slot: u8, stripe: u32 },
    /// All chunks of the slot are written, and it is Live.
    Promoted { slot: u8 },
    /// The slot was gone, and is Down.
    Dropped { slot: u8 },
}

impl From<FenceFault> for RecoverFault {
    ghost from_gives = { λ fault refusal. refusal ≡ recover_fault fault };

    fn from(fault: FenceFault) -> RecoverFault {
        match fault {
            FenceFault::TooFew(whys) => RecoverFault::TooFew(whys),
            FenceFault::EpochsSpent => RecoverFault::EpochsSpent,
        }
    }
}

impl From<FenceFault> for ArrayFault {
    ghost from_gives = { λ fault refusal. refusal ≡ array_fault fault };

    fn from(fault: FenceFault) -> ArrayFault {
        match fault {
            FenceFault::TooFew(whys) => ArrayFault::TooFew(whys),
            FenceFault::EpochsSpent => ArrayFault::EpochsSpent,
        }
    }
}

impl From<FenceFault> for ReplaceFault {
    ghost from_gives = { λ fault refusal. refusal ≡ replace_fault fault };

    fn from(fault: FenceFault) -> ReplaceFault {
        match fault {
            FenceFault::TooFew(whys) => ReplaceFault::TooFew(whys),
            FenceFault::EpochsSpent => ReplaceFault::EpochsSpent,
        }
    }
}

impl From<AdmitFault> for ReplaceFault {
    ghost from_gives = { λ fault refusal. refusal ≡ admission_fault fault };

    fn from(fault: AdmitFault) -> ReplaceFault {
        match fault {
            AdmitFault::TooFew(whys) => ReplaceFault::TooFew(whys),
            AdmitFault::EpochsSpent => ReplaceFault::EpochsSpent,
            AdmitFault::Gone(slot) => ReplaceFault::Gone(slot),
        }
    }
}

impl From<FenceFault> for RebuildFault {
    ghost from_gives = { λ fault refusal. refusal ≡ rebuild_fault fault };

    fn from(fault: FenceFault) -> RebuildFault {
        match fault {
            FenceFault::TooFew(whys) => RebuildFault::TooFew(whys),
            FenceFault::EpochsSpent => RebuildFault::EpochsSpent,
        }
    }
}
