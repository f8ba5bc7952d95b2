// Reads and writes that are tried again where they are interrupted.
ghost use Rattle.std.specs.Prelude.{◌≡◌, ◌↔◌, IsErrAnd, IsTrue};
ghost use Rattle.std.specs.Io.{ReadsAtMost, WritesAtMost};
ghost use Rattle.std.specs.Io.KnownBytes.{ReadConsumes, WriteAppends};
ghost use Rattle.std.specs.IoError.{error_kind};

use std::io;
use std::io::{ErrorKind, Read, Write};

// How often a call is tried again that was interrupted.
const RETRIES: u32 = 16;

/// One read, which is tried again up to 16 times where it is interrupted. A further interruption is answered, as is every
/// other error.
pub fn read_retrying<R: Read>(reader: &mut R, into: &mut [u8]) -> io::Result<usize>
    ensures bound { ReadsAtMost result into.new }
    ensures bytes { ReadConsumes (R.remaining reader.old) (R.remaining reader.new) result into.new }
{
    for _ in 0..RETRIES {
        let answer = reader.read(into);
        if !is_interrupted(&answer) {
            return answer;
        }
    }
    reader.read(into)
}

// One write, tried again in the same way.
pub(crate) fn write_retrying<W: Write>(writer: &mut W, from: &[u8]) -> io::Result<usize>
    ensures bound { WritesAtMost result from.now }
    ensures bytes { WriteAppends (W.contents writer.old) (W.contents writer.new) result from.now }
{
    for _ in 0..RETRIES {
        let answer = writer.write(from);
        if !is_interrupted(&answer) {
            return answer;
        }
    }
    writer.write(from)
}

// Whether a call is tried again: an interruption is, and no other answer.
fn is_interrupted(answer: &io::Result<usize>) -> bool
    ensures { IsTrue result ↔ IsErrAnd answer.now (λ error.
        error_kind error ≡ ErrorKind.Interrupted) }
{
    match answer {
        Ok(_) => false,
        Err(error) => error.kind() == ErrorKind::Interrupted,
    }
}
