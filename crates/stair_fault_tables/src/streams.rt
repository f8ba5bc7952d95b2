// Commands whose input is cut, and whose source or sink fails.
use crate::command::Command;
use crate::contents::{Fillings, reads, with_block, with_first};
use crate::racks::WRITTEN;
use crate::script::{FIRST_WRITTEN, all_contents, all_replies, last_reply};
use crate::tally::{Part, Tally};
use stair_calls::{Ends, FILLINGS, NOTHING_TOLD, WHOLE, blocks_of, call};
use stair_conf::Key;
use stair_engine::Status;
use stair_memrack::MemRack;
use std::alloc::{AllocError, Global};

// The commands that take input.
const COMMANDS: [Command; 6] = [
    Command::Check,
    Command::Stripe,
    Command::Restore,
    Command::Create,
    Command::Write,
    Command::Run,
];

// The fault: the input ends, the source fails, or the sink fails.
#[derive(Clone, Copy, PartialEq, Eq)]
enum Fault {
    Cut,
    Source,
    Sink,
}

// The place of the fault: before the first byte, after it, or before the last.
#[derive(Clone, Copy, PartialEq, Eq)]
enum Place {
    First,
    Second,
    Last,
}

impl Place {
    // So many bytes came, or went, of this many.
    fn of(self, length: usize) -> usize {
        match self {
            Place::First => 0,
            Place::Second => 1,
            Place::Last => length.saturating_sub(1),
        }
    }
}

// What a command puts out without a fault.
fn output(alloc: Global, command: Command) -> Result<Vec<u8>, AllocError> {
    match command {
        Command::Check => b"codeword\n".to_vec(alloc),
        Command::Stripe | Command::Restore => blocks_of(alloc, &[0; 8]),
        Command::Create => b"created 00000000000000000000000000000004 blocks 15\n".to_vec(alloc),
        Command::Write => b"wrote 15 blocks\n".to_vec(alloc),
        Command::Run => all_replies(alloc),
        _ => Ok(Vec::new(alloc)),
    }
}

// How a command ends whose input of so many bytes is cut there. A text, and the last line of a script, need no end.
fn cut_off(command: Command, place: Place, length: usize) -> Status {
    match (command, place) {
        (Command::Create, Place::First) => Status::Key(Key::N),
        (Command::Create, Place::Second) => Status::NotToml,
        (Command::Create, Place::Last) => Status::Done,
        (Command::Run, Place::Second) => Status::BadLine(1),
        (Command::Run, Place::First | Place::Last) => Status::Done,
        _ => Status::Input {
            needed: length as u64,
            took: place.of(length) as u64,
        },
    }
}

// What the blocks hold then: the whole blocks that came, and what the lines that came say.
fn contents(command: Command, fault: Fault, place: Place) -> Fillings {
    match (command, fault, place) {
        (Command::Write, Fault::Sink, _) => [WRITTEN; 15],
        (Command::Write, _, Place::Last) => with_first(&FILLINGS, 14, WRITTEN),
        (Command::Run, _, Place::Last) => all_contents(),
        (Command::Run, Fault::Sink, _) => with_block(&FILLINGS, 0, FIRST_WRITTEN),
        _ => FILLINGS,
    }
}

// How much of its output of so many bytes was put out.
fn count_put(
    alloc: Global,
    command: Command,
    fault: Fault,
    place: Place,
    length: usize,
) -> Result<usize, AllocError> {
    match (command, fault, place) {
        (_, Fault::Sink, _) => Ok(place.of(length)),
        (Command::Create | Command::Run, Fault::Cut, Place::Last) => Ok(length),
        // all lines but the last were answered
        (Command::Run, Fault::Source, Place::Last) => {
            Ok(length.saturating_sub(last_reply(alloc)?.len()))
        }
        _ => Ok(0),
    }
}

// Whether a command left what it should: the blocks; of `create` an array, where its text came whole.
fn is_left(
    alloc: Global,
    command: Command,
    rack: MemRack,
    fault: Fault,
    place: Place,
) -> Result<bool, AllocError> {
    let mut rack = rack;
    if command == Command::Create {
        let shown = call(alloc, &mut rack, "show", &[], WHOLE)?;
        let is_made = fault == Fault::Sink || (fault == Fault::Cut && place == Place::Last);
        let wanted = if is_made {
            Status::Done
        } else {
            Status::NoArray
        };
        return Ok(shown.status == wanted);
    }
    let wanted = contents(command, fault, place);
    reads(alloc, &mut rack, &wanted, NOTHING_TOLD)
}

// Whether a command ends as it should with this fault at this place, with a source that gives pieces of this size.
fn ends(
    alloc: Global,
    command: Command,
    fault: Fault,
    place: Place,
    piece: usize,
) -> Result<bool, AllocError> {
    let mut rack = command.rack(alloc)?;
    let input = command.input(alloc)?;
    let output = output(alloc, command)?;
    let mut ends = Ends {
        piece,
        fails_at: None,
        room: WHOLE.room,
    };
    let mut given = input.as_slice();
    let status = match fault {
        Fault::Cut => {
            given = given.get(..place.of(input.len())).unwrap_or(given);
            cut_off(command, place, input.len())
        }
        Fault::Source => {
            ends.fails_at = Some(place.of(input.len()) as u64);
            Status::InputFault
        }
        Fault::Sink => {
            ends.room = place.of(output.len());
            Status::OutputFault
        }
    };
    let came = call(alloc, &mut rack, command.line(), given, ends)?;
    let count = count_put(alloc, command, fault, place, output.len())?;
    let is_put = output.get(..count) == Some(came.put.as_slice());
    Ok(came.status == status && is_put && is_left(alloc, command, rack, fault, place)?)
}

/// Each command that takes input, for each fault at each place, with sources that give pieces of three sizes.
pub(crate) fn streams(alloc: Global) -> Result<Part, AllocError> {
    let mut tally = Tally::new();
    for (row, command) in COMMANDS.iter().enumerate() {
        for fault in [Fault::Cut, Fault::Source, Fault::Sink] {
            for place in [Place::First, Place::Second, Place::Last] {
                for piece in [1, 512, WHOLE.piece] {
                    let is_right = ends(alloc, *command, fault, place, piece)?;
                    tally.judge(is_right, row as u32, piece as u32);
                }
            }
        }
    }
    Ok(Part::over_cases("commands whose input or output fails", tally))
}
