use crate::{Name, Numbers};
use stair_super::Label;

/// How a stripe is encoded: the word METHOD of `stripe`.
#[derive(Clone, Copy, Debug, PartialEq, Eq)]
pub enum Method {
    /// `standard`: by the coefficients of the parities over the data cells.
    Standard,
    /// `up`: upstairs.
    Up,
    /// `down`: downstairs.
    Down,
    /// `fewest`: by the one of the three that takes the fewest steps.
    Fewest,
}

/// What is to be done with one stripe.
#[derive(Clone, Copy, Debug, PartialEq, Eq)]
pub enum StripeCommand {
    /// `check`: whether it is a codeword.
    Check,
    /// `stripe METHOD`: it is encoded from blocks.
    Encode(Method),
    /// `restore`: its erased cells, from those that are held.
    Restore,
}

/// What is to be done with the volumes of an array.
///
/// The names are as written: whether there are such volumes, and whether they have the blocks, is not tested here.
#[derive(Clone, Copy, Debug, PartialEq, Eq)]
pub enum VolumeJob {
    /// `vinit`: block 0 becomes a table without volumes.
    Ready,
    /// `vmake NAME BLOCKS`: a volume of so many blocks of zeros is added.
    Make {
        /// The name of the volume.
        name: Name,
        /// How many blocks it gets, at least 1.
        blocks: u64,
    },
    /// `vdrop NAME`: a volume is taken out.
    Remove {
        /// The name of the volume.
        name: Name,
    },
    /// `vlist`: the volumes are listed.
    List,
    /// `vread NAME BLOCK COUNT`: blocks of a volume are put out.
    Read {
        /// The name of the volume.
        name: Name,
        /// The first block, counted from the volume's first.
        block: u64,
        /// How many blocks.
        count: u64,
    },
    /// `vwrite NAME BLOCK COUNT`: blocks of a volume are written.
    Write {
        /// The name of the volume.
        name: Name,
        /// The first block, counted from the volume's first.
        block: u64,
        /// How many blocks.
        count: u64,
    },
}

/// What the words ask for.
///
/// The numbers are as written: whether they are the shape of an array, or blocks or a slot that it has, is not tested here. The
/// letters are those of Li and Lee, STAIR Codes (FAST 2014): N devices, M of which may fail, R sectors in a chunk, and the
/// coverage E.. of the others.
#[derive(Debug, Drop)]
pub enum Job {
    /// `check N M R E..`, `stripe METHOD N M R E..` or `restore N M R E..`: one stripe.
    OneStripe {
        /// What is to be done with it.
        command: StripeCommand,
        /// The number N.
        n: u64,
        /// The number M.
        m: u64,
        /// The number R.
        r: u64,
        /// The numbers E in the order of the words, at least one.
        e: Numbers,
    },
    /// `create`: an array, of the geometry that a text says.
    Create,
    /// `show`: what there is of an array.
    Show,
    /// `read BLOCK COUNT`: blocks of an array are put out.
    Read {
        /// The first block.
        block: u64,
        /// How many blocks.
        count: u64,
    },
    /// `write BLOCK COUNT`: blocks of an array are written.
    Write {
        /// The first block.
        block: u64,
        /// How many blocks.
        count: u64,
    },
    /// `scrub`: the stripes of an array are repaired.
    Scrub,
    /// `replace SLOT`: a slot of an array gets a new device, which is rebuilt.
    Replace {
        /// The number of the slot.
        slot: u64,
    },
    /// `rebuild`: the devices that are being rebuilt, to their end.
    Rebuild,
    /// `freeze`: an array takes no more writes.
    Freeze,
    /// `thaw`: it takes them again.
    Thaw,
    /// `label TEXT`: an array gets a label.
    Label {
        /// The label, which isn't empty and doesn't begin with a hyphen.
        text: Label,
    },
    /// `run`: the lines of a script are done.
    Run,
    /// `exercise NUMBER COUNT`: steps that a number gives.
    Exercise {
        /// The number that they begin with.
        number: u64,
        /// How many steps.
        count: u64,
    },
    /// `guard EVENTS FENCES`: the lines of a script are done, up to one at which a watcher leaves.
    Guard {
        /// After how many events in all a watcher leaves, at least 1.
        events: u64,
        /// After how many slots that were fenced, at least 1.
        fences: u64,
    },
    /// `report`: the events of lines are counted.
    Report,
    /// `serve`: a client of the protocol NBD has the array as its block device.
    Serve,
    /// `vinit`, `vmake NAME BLOCKS`, `vdrop NAME`, `vlist`, `vread NAME BLOCK COUNT` or `vwrite NAME BLOCK COUNT`: the volumes of
    /// an array.
    Volume(VolumeJob),
    /// `plan N M R E..`: what the code of a geometry costs.
    Plan {
        /// The number N.
        n: u64,
        /// The number M.
        m: u64,
        /// The number R.
        r: u64,
        /// The numbers E in the order of the words, at least one.
        e: Numbers,
    },
}
