ghost use Rattle.std.specs.Prelude.{◌≡◌, ◌+◌, ◌≤◌, ◌<◌, true, false};
ghost use Rattle.stair_nbd.specs.Client.{SESSION_LIMIT as LIMIT};
ghost use Rattle.stair_nbd.specs.Sessions.{IsPlace};

/// The number of input bytes after which no message may begin.
pub const SESSION_LIMIT: u64 = 1 << 40;

/// Where the next message of a session begins.
#[derive(Clone, Copy)]
pub(crate) struct MessagePosition {
    /// Its number, counted from 1.
    pub(crate) number: u64,
    /// How many bytes came before it.
    pub(crate) taken: u64,
}

impl MessagePosition {
    /// Returns where the message after one of `bytes` bytes begins.
    pub(crate) fn behind(self, bytes: u64) -> MessagePosition
        requires some { 0 < bytes }
        requires few { self.number ≤ self.taken }
        requires early { self.taken < LIMIT }
        requires short { bytes < 4294967296 + 28 }
        ensures number { result.number ≡ self.number + 1 }
        ensures taken { result.taken ≡ self.taken + bytes }
        ensures is { IsPlace result }
    {
        MessagePosition {
            number: self.number + 1,
            taken: self.taken + bytes,
        }
    }

    /// Returns whether a message that begins here comes too late.
    pub(crate) fn is_too_late(self) -> bool
        ensures late { result ≡ true → LIMIT ≤ self.taken }
        ensures early { result ≡ false → self.taken < LIMIT }
    {
        self.taken >= SESSION_LIMIT
    }
}
