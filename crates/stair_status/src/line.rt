ghost use Rattle.std.specs.Prelude.{◌≡◌, ◌++◌, codes};
ghost use Rattle.std.specs.Fmt.{WritesOnOk};
ghost use Rattle.stair_status.specs.Status.{equation_line, line_of, words_of as words_of_mark};
ghost use Rattle.stair_status.specs.declared.status.Status.TheVariants.{Lost, TooFew, TwoArrays};

use crate::Status;
use crate::identity::Identity;
use crate::lists::{ListedCounts, ListedReasons};
use stair_base::Broken;
use stair_member::Why;
use stair_super::Mark;
use std::fmt;

/// The line for standard error, without an end; nothing where all was done.
impl fmt::Display for Status {
    ghost use Rattle.std.specs.Prelude.{Some};
    ghost use Rattle.stair_status.specs.Status.{line_of};

    ghost output = { λ s. Some (line_of s) };

    fn fmt<W: fmt::Write>(&self, f: &mut fmt::Formatter<W>) -> fmt::Result {
        match self {
            Status::Done => Ok(()),
            Status::NotCodeword(broken) => write_broken(*broken, f),
            Status::NoCodeword => f.write_str("no codeword holds these cells"),
            Status::Usage => f.write_str(
                "usage: stair FOLDER check|stripe|restore|create|show|read|write|scrub|replace|rebuild|run|exercise|freeze|thaw|label|guard|report|serve|vinit|vmake|vdrop|vlist|vread|vwrite|plan",
            ),
            Status::Limit(limit) => write!(f, "geometry: limit {limit}"),
            Status::Key(key) => write!(f, "geometry: key {}", key.name()),
            Status::NotToml => f.write_str("geometry: not TOML"),
            Status::Input { needed, took } => { write!(f, "input: needed {needed}, took {took}") }
            Status::InputFault => f.write_str("input failed"),
            Status::OutputFault => f.write_str("output failed"),
            Status::NoArray => f.write_str("no array"),
            Status::TwoArrays(first, second) => write_two_arrays(*first, *second, f),
            Status::TooFew(whys) => write_too_few(*whys, f),
            Status::Lost { stripe, counts, n } => write_lost(*stripe, *counts, *n, f),
            Status::OutOfRange { asked, limit } => write!(f, "out of range: {asked} of {limit}"),
            Status::AlreadyArray(slot) => write!(f, "array already: slot {slot}"),
            Status::SmallDevice { slot, has, needs } => {
                write!(f, "small device: slot {slot} has {has} of {needs} sectors")
            }
            Status::SlotBusy { slot, mark } => {
                write!(f, "slot busy: slot {slot} is {}", words_of(*mark))
            }
            Status::Gone(slot) => write!(f, "gone: slot {slot}"),
            Status::EpochsSpent => f.write_str("epochs spent"),
            Status::OutOfMemory => f.write_str("out of memory"),
            Status::BadLine(number) => write!(f, "bad line {number}"),
            Status::JournalLost { sector } => write!(f, "journal lost: sector {sector}"),
            Status::Frozen => f.write_str("frozen"),
            Status::Halted(number) => write!(f, "halted after line {number}"),
            Status::BadMessage(number) => write!(f, "bad message {number}"),
            Status::NoTable => f.write_str("no volume table"),
            Status::TableThere => f.write_str("volume table already"),
            Status::NoVolume => f.write_str("no such volume"),
            Status::NameTaken => f.write_str("name taken"),
            Status::TableFull => f.write_str("table full"),
            Status::NoRoom(blocks) => write!(f, "no room: {blocks} blocks"),
        }
    }
}

// The first equation that a stripe breaks.
fn write_broken<W: fmt::Write>(broken: Broken, f: &mut fmt::Formatter<W>) -> fmt::Result
    ensures { WritesOnOk W.write_str_gives f.old result (codes "not a codeword: " ++ equation_line broken) f.new }
{
    match broken {
        Broken::Row { row, parity, byte } => {
            write!(f, "not a codeword: row {row} parity {parity} byte {byte}")
        }
        Broken::Global { l, h, byte } => write!(f, "not a codeword: global {l} {h} byte {byte}"),
    }
}

// The identities of two arrays.
fn write_two_arrays<W: fmt::Write>(
    first: [u8; 16],
    second: [u8; 16],
    f: &mut fmt::Formatter<W>,
) -> fmt::Result
    ensures { WritesOnOk W.write_str_gives f.old result (line_of (TwoArrays first second)) f.new }
{
    let first = Identity { id: first };
    let second = Identity { id: second };
    write!(f, "two arrays: {first} {second}")
}

// The slots that aren't live, and why.
fn write_too_few<W: fmt::Write>(whys: [Why; 32], f: &mut fmt::Formatter<W>) -> fmt::Result
    ensures { WritesOnOk W.write_str_gives f.old result (line_of (TooFew whys)) f.new }
{
    let listed = ListedReasons { whys };
    write!(f, "too few devices: {listed}")
}

// How many cells of a lost stripe are erased, for each slot.
fn write_lost<W: fmt::Write>(
    stripe: u32,
    counts: [u8; 32],
    n: u8,
    f: &mut fmt::Formatter<W>,
) -> fmt::Result
    ensures { WritesOnOk W.write_str_gives f.old result (line_of (Lost stripe counts n)) f.new }
{
    let listed = ListedCounts { counts, n };
    write!(f, "lost: stripe {stripe} counts{listed}")
}

// The word for a mark.
fn words_of(mark: Mark) -> &'static str
    ensures { result.now ≡ words_of_mark mark }
{
    match mark {
        Mark::Live => "live",
        Mark::Rebuilding => "rebuilding",
        Mark::Down => "down",
    }
}
