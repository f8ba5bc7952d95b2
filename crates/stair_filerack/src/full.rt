// Reads that fill a buffer.
ghost use Rattle.std.specs.Prelude.{◌≤◌, ◌<◌, IfOk, OnErr, length, take};
ghost use Rattle.std.specs.Io.KnownBytes.{Consumes, IsAtEnd};
ghost use Rattle.stair_filerack.specs.Files.{ReadsFewer};

use stair_rack::read_retrying;
use std::io;
use std::io::Read;

/// Reads from the file's place on until `into` is full or the file ends. Returns the number of bytes read.
pub(crate) fn read_full<T: Read>(file: &mut T, into: &mut [u8]) -> io::Result<usize>
    ensures within { IfOk result (λ count. count ≤ length into.old) }
    ensures bytes { IfOk result (λ count.
        Consumes (T.remaining file.old) (T.remaining file.new) (take count into.new)) }
    ensures short { IfOk result (λ count. count < length into.old → IsAtEnd (T.remaining file.new)) }
    ensures failed { OnErr result
        (ReadsFewer (length into.old) (T.remaining file.old) (T.remaining file.new)) }
{
    let mut filled = 0;
    while filled < into.len() {
        let count = read_retrying(file, &mut into[filled..])?;
        if count == 0 {
            return Ok(filled);
        }
        filled += count;
    }
    Ok(filled)
}
