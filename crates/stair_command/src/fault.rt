ghost use Rattle.std.specs.Prelude.{◌≡◌};
ghost use Rattle.stair_command.specs.declared.fault.Fault.TheVariants.{Memory, Text, Create, Survey, Opening};

use stair_array::{ArrayFault, CreateFault, RebuildFault, RecoverFault, ReplaceFault};
use stair_conf::ConfigFault;
use stair_member::SurveyFault;
use std::alloc::AllocError;

/// Why a call ended before the answer was known or put out.
#[derive(Clone, Copy, Debug, PartialEq, Eq)]
pub enum Fault {
    /// There was no memory.
    Memory,
    /// The input had another length, in bytes, than the command needs.
    Length { needed: u64, took: u64 },
    /// The source failed.
    Input,
    /// The sink failed.
    Output,
    /// The geometry text was refused, or there was no memory to read it.
    Text(ConfigFault),
    /// No array was made.
    Create(CreateFault),
    /// No array was found.
    Survey(SurveyFault),
    /// The array that was found wasn't opened.
    Opening(RecoverFault),
    /// An open array of so many slots refused a step.
    Step { fault: ArrayFault, slots: u8 },
    /// An open array of so many slots didn't admit the device in a slot.
    Replace { fault: ReplaceFault, slots: u8 },
    /// A step of a rebuild was refused by an open array of so many slots.
    Rebuild { fault: RebuildFault, slots: u8 },
    /// The slot that was replaced isn't Live at the end.
    Gone(u8),
    /// The number `asked` is at or past the `limit`.
    OutOfRange { asked: u64, limit: u64 },
    /// This line of a script, counted from 1, isn't in the grammar, or is too long.
    BadLine(u64),
}

impl From<AllocError> for Fault {
    ghost from_gives = { λ _ fault. fault ≡ Memory };

    fn from(_error: AllocError) -> Fault {
        Fault::Memory
    }
}

impl From<ConfigFault> for Fault {
    ghost from_gives = { λ config fault. fault ≡ Text config };

    fn from(fault: ConfigFault) -> Fault {
        Fault::Text(fault)
    }
}

impl From<CreateFault> for Fault {
    ghost from_gives = { λ refusal fault. fault ≡ Create refusal };

    fn from(fault: CreateFault) -> Fault {
        Fault::Create(fault)
    }
}

impl From<SurveyFault> for Fault {
    ghost from_gives = { λ refusal fault. fault ≡ Survey refusal };

    fn from(fault: SurveyFault) -> Fault {
        Fault::Survey(fault)
    }
}

impl From<RecoverFault> for Fault {
    ghost from_gives = { λ refusal fault. fault ≡ Opening refusal };

    fn from(fault: RecoverFault) -> Fault {
        Fault::Opening(fault)
    }
}
