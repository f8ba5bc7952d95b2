ghost use Rattle.std.specs.Prelude.{◌≡◌};
ghost use Rattle.stair_array.specs.Faults.{rebuild_refusal, refusal_for, replace_refusal};
ghost use Rattle.stair_command.specs.Action.{status_of_create as create_status, status_of_survey as survey_status};
ghost use Rattle.stair_command.specs.Fault.{status_of_config as config_status, status_of_opening as opening_status};
ghost use Rattle.stair_command.specs.Refused.{status_of_refusal};

use crate::fault::Fault;
use stair_array::{ArrayFault, CreateFault, RebuildFault, RecoverFault, ReplaceFault};
use stair_conf::ConfigFault;
use stair_member::SurveyFault;
use stair_status::Status;

impl From<Fault> for Status {
    ghost use Rattle.stair_command.specs.Fault.{status_of_fault};

    ghost from_gives = { λ fault status. status ≡ status_of_fault fault };

    fn from(fault: Fault) -> Status {
        match fault {
            Fault::Memory => Status::OutOfMemory,
            Fault::Length { needed, took } => Status::Input { needed, took },
            Fault::Input => Status::InputFault,
            Fault::Output => Status::OutputFault,
            Fault::Text(fault) => status_of_config(fault),
            Fault::Create(fault) => status_of_create(fault),
            Fault::Survey(fault) => status_of_survey(fault),
            Fault::Opening(fault) => status_of_opening(fault),
            Fault::Step { fault, slots } => status_of_step(fault, slots),
            Fault::Replace { fault, slots } => status_of_replacement(fault, slots),
            Fault::Rebuild { fault, slots } => status_of_rebuild(fault, slots),
            Fault::Gone(slot) => Status::Gone(slot),
            Fault::OutOfRange { asked, limit } => Status::OutOfRange { asked, limit },
            Fault::BadLine(number) => Status::BadLine(number),
        }
    }
}

// The status of an opening that was refused.
fn status_of_opening(fault: RecoverFault) -> Status
    ensures { result ≡ opening_status fault }
{
    match fault {
        RecoverFault::Memory => Status::OutOfMemory,
        RecoverFault::TooFew(whys) => Status::TooFew(whys),
        RecoverFault::EpochsSpent => Status::EpochsSpent,
        RecoverFault::JournalLost { sector } => Status::JournalLost { sector },
    }
}

// The status of a step that an open array of so many slots refused.
fn status_of_step(fault: ArrayFault, slots: u8) -> Status
    ensures { result ≡ status_of_refusal slots (refusal_for fault) }
{
    match fault {
        ArrayFault::OutOfRange { asked, limit } => Status::OutOfRange { asked, limit },
        ArrayFault::Frozen => Status::Frozen,
        ArrayFault::Lost { stripe, counts } => Status::Lost {
            stripe,
            counts,
            n: slots,
        },
        ArrayFault::TooFew(whys) => Status::TooFew(whys),
        ArrayFault::EpochsSpent => Status::EpochsSpent,
    }
}

// The status of a replacement that an open array of so many slots refused.
fn status_of_replacement(fault: ReplaceFault, slots: u8) -> Status
    ensures { result ≡ status_of_refusal slots (replace_refusal fault) }
{
    match fault {
        ReplaceFault::OutOfRange { asked, limit } => Status::OutOfRange { asked, limit },
        ReplaceFault::SlotBusy { slot, mark } => Status::SlotBusy { slot, mark },
        ReplaceFault::Gone(slot) => Status::Gone(slot),
        ReplaceFault::SmallDevice { slot, has, needs } => Status::SmallDevice { slot, has, needs },
        ReplaceFault::AlreadyArray(slot) => Status::AlreadyArray(slot),
        ReplaceFault::TooFew(whys) => Status::TooFew(whys),
        ReplaceFault::EpochsSpent => Status::EpochsSpent,
    }
}

// The status of a step of a rebuild that an open array of so many slots refused.
fn status_of_rebuild(fault: RebuildFault, slots: u8) -> Status
    ensures { result ≡ status_of_refusal slots (rebuild_refusal fault) }
{
    match fault {
        RebuildFault::Lost { stripe, counts } => Status::Lost {
            stripe,
            counts,
            n: slots,
        },
        RebuildFault::TooFew(whys) => Status::TooFew(whys),
        RebuildFault::EpochsSpent => Status::EpochsSpent,
    }
}

// The status of a geometry text that was refused.
fn status_of_config(fault: ConfigFault) -> Status
    ensures { result ≡ config_status fault }
{
    match fault {
        ConfigFault::NotToml => Status::NotToml,
        ConfigFault::Key(key) => Status::Key(key),
        ConfigFault::Limit(limit) => Status::Limit(limit),
        ConfigFault::Memory => Status::OutOfMemory,
    }
}

// The status where no array was made.
fn status_of_create(fault: CreateFault) -> Status
    ensures { result ≡ create_status fault }
{
    match fault {
        CreateFault::Gone(slot) => Status::Gone(slot),
        CreateFault::SmallDevice { slot, has, needs } => Status::SmallDevice { slot, has, needs },
        CreateFault::AlreadyArray(slot) => Status::AlreadyArray(slot),
    }
}

// The status where no array was found.
fn status_of_survey(fault: SurveyFault) -> Status
    ensures { result ≡ survey_status fault }
{
    match fault {
        SurveyFault::NoArray => Status::NoArray,
        SurveyFault::TwoArrays(first, second) => Status::TwoArrays(first, second),
        SurveyFault::TooFew(whys) => Status::TooFew(whys),
    }
}
