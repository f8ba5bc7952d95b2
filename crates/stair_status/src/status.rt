ghost use Rattle.std.specs.Prelude.{◌≡◌};

use stair_base::Broken;
use stair_conf::Key;
use stair_member::Why;
use stair_super::Mark;

/// What a call came to.
#[derive(Clone, Copy, Debug, PartialEq, Eq)]
pub enum Status {
    /// All was done.
    Done,
    /// The stripe breaks this equation, and none before it.
    NotCodeword(Broken),
    /// The erased cells are covered, and no codeword has the cells that are held.
    NoCodeword,
    /// The words spell no command.
    Usage,
    /// The geometry breaks this limit, and none before it.
    Limit(u8),
    /// The geometry text lacks this key, or has another kind of value there, and no key before it.
    Key(Key),
    /// The geometry text isn't TOML.
    NotToml,
    /// The input had another length than the command needs, in bytes, or a geometry text is too long. At most one byte more
    /// than needed is taken.
    Input {
        needed: u64,
        took: u64,
    },
    /// The source failed.
    InputFault,
    /// The sink failed.
    OutputFault,
    /// No array stands by the superblocks that were read.
    NoArray,
    /// Two arrays stand, or more: the identities of the two whose lowest slots are lowest, in that order.
    TwoArrays([u8; 16], [u8; 16]),
    /// More than m of the array's slots aren't live. For each of the 32 slots the reason; one that the array hasn't has
    /// `Here`.
    TooFew([Why; 32]),
    /// The erased cells of this stripe are not covered. For each of the `n` slots, `counts` has how many of its cells are
    /// erased, and after them zeros.
    Lost {
        stripe: u32,
        counts: [u8; 32],
        n: u8,
    },
    /// This block, stripe or slot was asked for, or so many, and the limit is no greater.
    OutOfRange {
        asked: u64,
        limit: u64,
    },
    /// The medium of this slot has a superblock, of whatever array.
    AlreadyArray(u8),
    /// The device of a slot has too few sectors.
    SmallDevice {
        slot: u8,
        has: u32,
        needs: u32,
    },
    /// A device was to be put in this slot, which isn't Down.
    SlotBusy {
        slot: u8,
        mark: Mark,
    },
    /// This slot is gone.
    Gone(u8),
    /// An epoch was due, and the greatest number for one was drawn already.
    EpochsSpent,
    /// There was no memory.
    OutOfMemory,
    /// This line of a script, counted from 1, isn't in the grammar, or is too long.
    BadLine(u64),
    /// A write was under way, and this sector of the journal's body can't be read from any live slot.
    JournalLost {
        sector: u32,
    },
    /// The array is frozen.
    Frozen,
    /// A watcher left at this line of a guarded script, counted from 1, or as the array was opened, which is 0; no more lines
    /// were done.
    Halted(u64),
    /// This message of a client, counted from 1, isn't one of the protocol, or came too late.
    BadMessage(u64),
    /// Block 0 isn't a table of volumes.
    NoTable,
    /// Block 0 is a table of volumes already.
    TableThere,
    /// No volume has the name.
    NoVolume,
    /// A volume has the name already.
    NameTaken,
    /// The table has as many volumes as it may.
    TableFull,
    /// No free range of so many blocks is there.
    NoRoom(u64),
}

impl Status {
    ghost use Rattle.stair_status.specs.Status.{code_of};

    /// The exit status of the program.
    pub fn code(&self) -> u8
        ensures { result ≡ code_of self.now }
    {
        match self {
            Status::Done => 0,
            Status::NotCodeword(_) | Status::NoCodeword => 1,
            Status::Usage => 2,
            Status::Limit(_) | Status::Key(_) | Status::NotToml => 3,
            Status::Input { .. } => 4,
            Status::InputFault => 5,
            Status::OutputFault => 6,
            Status::NoArray => 7,
            Status::TwoArrays(..) => 8,
            Status::TooFew(_) => 9,
            Status::Lost { .. } => 10,
            Status::OutOfRange { .. } => 11,
            Status::AlreadyArray(_) => 12,
            Status::SmallDevice { .. } => 13,
            Status::SlotBusy { .. } => 14,
            Status::Gone(_) => 15,
            Status::EpochsSpent => 16,
            Status::OutOfMemory => 17,
            Status::BadLine(_) => 18,
            Status::JournalLost { .. } => 19,
            Status::Frozen => 20,
            Status::Halted(_) => 21,
            Status::BadMessage(_) => 22,
            Status::NoTable => 23,
            Status::TableThere => 24,
            Status::NoVolume => 25,
            Status::NameTaken => 26,
            Status::TableFull => 27,
            Status::NoRoom(_) => 28,
        }
    }
}
