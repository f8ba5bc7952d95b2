use stair_command::Status;

/// Why a session ended otherwise than by its client or by the end of its input before a message.
#[derive(Clone, Copy, Debug, PartialEq, Eq)]
pub enum NbdFault {
    /// The input ended within a message or within its header, which has `needed` bytes; `took` of them came.
    Input { needed: u64, took: u64 },
    /// The source failed.
    InputFault,
    /// The sink failed. A part of a reply may have been written.
    OutputFault,
    /// This message, counted from 1, is not of the protocol, or came too late.
    BadMessage(u64),
}

impl From<NbdFault> for Status {
    ghost use Rattle.std.specs.Prelude.{◌≡◌};
    ghost use Rattle.stair_nbd.specs.Client.{status_of_nbd};

    ghost from_gives = { λ fault status. status ≡ status_of_nbd fault };

    fn from(fault: NbdFault) -> Status {
        match fault {
            NbdFault::Input { needed, took } => Status::Input { needed, took },
            NbdFault::InputFault => Status::InputFault,
            NbdFault::OutputFault => Status::OutputFault,
            NbdFault::BadMessage(number) => Status::BadMessage(number),
        }
    }
}
