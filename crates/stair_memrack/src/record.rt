// What is asked of a slot, and the record of the calls.
ghost use Rattle.std.specs.Prelude.{◌≡◌};
ghost use Rattle.stair_memrack.specs.Record.{reply_of, number_of, got_of, call_is_gone, call_is_bad, call_is_read};
ghost use Rattle.stair_memrack.specs.Left.{wrote_on};

use stair_rack::{Got, Reply};

/// What a call asks of a slot.
#[derive(Clone, Copy, Debug, Drop)]
pub(crate) enum Ask {
    Attach,
    Sectors,
    Read(u32),
    Write(u32, [u8; 512]),
    Sync,
}

/// A call on a slot, with its answer.
#[derive(Clone, Copy, Debug, Drop)]
pub(crate) enum Call {
    Attach(Reply),
    Sectors(u32),
    Read(u32, Got),
    Write(u32, [u8; 512], Reply),
    Sync(Reply),
}

/// A call of the record.
#[derive(Clone, Copy, Debug, Drop)]
pub(crate) struct Recorded {
    pub(crate) slot: u8,
    pub(crate) call: Call,
}

impl Recorded {
    /// The bytes that the call wrote to this sector, where it did.
    pub(crate) fn wrote_on(&self, slot: u8, sector: u32) -> Option<[u8; 512]>
        ensures { result ≡ wrote_on self.now slot sector }
    {
        match &self.call {
            Call::Write(index, bytes, Reply::Done) if self.slot == slot && *index == sector => {
                Some(*bytes)
            }
            _ => None,
        }
    }
}

impl Call {
    /// The reply of an attach, a write or a sync, and `Done` of the others.
    pub(crate) fn reply(&self) -> Reply
        ensures { result ≡ reply_of self.now }
    {
        match self {
            Call::Attach(reply) | Call::Write(_, _, reply) | Call::Sync(reply) => *reply,
            Call::Sectors(_) | Call::Read(_, _) => Reply::Done,
        }
    }

    /// What `sectors` answered, and 0 of the others.
    pub(crate) fn number(&self) -> u32
        ensures { result ≡ number_of self.now }
    {
        match self {
            Call::Sectors(number) => *number,
            _ => 0,
        }
    }

    /// What a read got, and `Good` of the others.
    pub(crate) fn got(&self) -> Got
        ensures { result ≡ got_of self.now }
    {
        match self {
            Call::Read(_, got) => *got,
            _ => Got::Good,
        }
    }

    /// Whether the slot was gone.
    pub(crate) fn is_gone(&self) -> bool
        ensures { result ≡ call_is_gone self.now }
    {
        match (self.reply(), self.got()) {
            (Reply::Gone, _) | (_, Got::Gone) => true,
            _ => false,
        }
    }

    /// Whether the sector was bad.
    pub(crate) fn is_bad(&self) -> bool
        ensures { result ≡ call_is_bad self.now }
    {
        matches!(self.got(), Got::Bad)
    }

    /// Whether it is a read.
    pub(crate) fn is_read(&self) -> bool
        ensures { result ≡ call_is_read self.now }
    {
        matches!(self, Call::Read(_, _))
    }
}
