ghost use Rattle.std.specs.Prelude.{◌≡◌};

use crate::wire::ReplyError;

/// The result of a request: an error or none, and the part of the blocks that has the bytes of the reply.
#[derive(Clone, Copy)]
pub(crate) struct Reply {
    pub(crate) error: ReplyError,
    pub(crate) start: usize,
    pub(crate) length: usize,
}

impl Reply {
    /// Returns a reply of no bytes.
    pub(crate) fn of(error: ReplyError) -> Reply
        ensures error { result.error ≡ error }
        ensures short { result.length ≡ 0 }
        ensures front { result.start ≡ 0 }
    {
        Reply {
            error,
            start: 0,
            length: 0,
        }
    }
}
