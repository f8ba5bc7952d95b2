// Every command over a rack that isn't honest.
use crate::command::Command;
use crate::tally::{Part, Tally};
use stair_calls::{WHOLE, call};
use stair_engine::Status;
use stair_memrack::WildRack;
use std::alloc::{AllocError, Global};

// Whether a command may end so: neither source nor sink fails, the array isn't frozen, and no answer is a superblock that
// wasn't written.
fn may_end(command: Command, status: Status) -> bool {
    let is_opening = matches!(
        status,
        Status::NoArray | Status::TooFew(_) | Status::JournalLost { .. }
    );
    match command {
        Command::Check | Command::Stripe | Command::Restore => status == Status::Done,
        Command::Create => matches!(
            status,
            Status::Done
                | Status::Gone(0..=3)
                | Status::SmallDevice {
                    slot: 0..=3,
                    needs: 17,
                    ..
                }
        ),
        Command::Show => matches!(status, Status::Done | Status::NoArray | Status::TooFew(_)),
        Command::Read
        | Command::Write
        | Command::Scrub
        | Command::Rebuild
        | Command::Run
        | Command::Exercise => is_opening || matches!(status, Status::Done | Status::Lost { .. }),
        Command::Replace => {
            is_opening
                || matches!(
                    status,
                    Status::Done
                        | Status::Lost { .. }
                        | Status::Gone(2)
                        | Status::SmallDevice {
                            slot: 2,
                            needs: 17,
                            ..
                        }
                )
        }
        Command::Freeze | Command::Thaw | Command::Label => is_opening || status == Status::Done,
    }
}

// How many answers a list has.
const ANSWERS: usize = 64;

// The answers that a number gives: the low byte of each number of a linear congruential generator, without its last 33 bits. Its
// multiplier and increment are those of Knuth's MMIX.
fn answers(number: u64) -> [u8; ANSWERS] {
    let mut answers = [0; ANSWERS];
    let mut state = number;
    for answer in answers.iter_mut() {
        state = state
            .wrapping_mul(6_364_136_223_846_793_005)
            .wrapping_add(1_442_695_040_888_963_407);
        *answer = ((state >> 33) % 256) as u8;
    }
    answers
}

// Whether the command ends as it may over a rack that answers so.
fn ends(alloc: Global, command: Command, answers: &[u8; ANSWERS]) -> Result<bool, AllocError> {
    let mut rack = WildRack::new(alloc, command.rack(alloc)?, answers)?;
    let input = command.input(alloc)?;
    let came = call(alloc, &mut rack, command.line(), &input, WHOLE)?;
    Ok(may_end(command, came.status))
}

/// Each command over racks whose answers the numbers from 0 on give.
pub(crate) fn wild_racks(alloc: Global) -> Result<Part, AllocError> {
    let mut tally = Tally::new();
    for (row, command) in Command::EACH.iter().enumerate() {
        for number in 0..200 {
            let is_right = ends(alloc, *command, &answers(u64::from(number)))?;
            tally.judge(is_right, row as u32, number);
        }
    }
    Ok(Part::over_cases("commands over racks that aren't honest", tally))
}
