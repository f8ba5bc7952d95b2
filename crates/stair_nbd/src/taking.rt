// Takes a client's messages, and writes what it is answered.
ghost use Rattle.std.specs.Prelude.{◌≡◌, ◌++◌, ◌+◌, ◌*◌, ◌≤◌, ◌<◌, ℕ, List, IfErr, IfOk, drop, length};
ghost use Rattle.stair_command.specs.Outside.{sink_view, source_view};
ghost use Rattle.stair_command.specs.Program.{Over, Program, Put};
ghost use Rattle.stair_command.specs.Talks.{PutsTo, TakesTo};
ghost use Rattle.stair_nbd.specs.Client.{status_of, takes_data, takes_header, too_late as comes_too_late};
ghost use Rattle.stair_nbd.specs.Sessions.{BLOCKS, TakesData, after_data, after_done, after_header, data_of};
ghost use Rattle.stair_nbd.specs.Wire.{simple_reply as header_of};

use crate::fault::NbdFault;
use crate::place::MessagePosition;
use crate::reply::Reply;
use crate::wire::{REPLY_LENGTH, REQUEST_LENGTH, Request, simple_reply};
use stair_command::{Filled, put_all, take_at_least};
use stair_rack::{Sink, Source};

/// The most bytes of data that a request may have.
pub(crate) const DATA_LIMIT: u32 = 1 << 25;

/// Takes a whole header. Returns false if the input ended before it.
pub(crate) fn take_header<S: Source>(input: &mut S, header: &mut [u8]) -> Result<bool, NbdFault>
    requires { 0 < length header.old }
    ensures { (k : List ℕ → Program) → TakesTo (source_view S.Source)
        (takes_header (length header.old) k) (after_header result header.new k)
        input.old input.new }
{
    let needed = header.len();
    match take_at_least(input, needed, header) {
        Filled::Enough(_) => Ok(true),
        Filled::Short(0) => Ok(false),
        Filled::Short(count) => Err(NbdFault::Input {
            needed: needed as u64,
            took: count as u64,
        }),
        Filled::Failed => Err(NbdFault::InputFault),
    }
}

/// Takes the bytes after a header.
pub(crate) fn take_data<S: Source>(
    input: &mut S,
    header: usize,
    into: &mut [u8],
) -> Result<(), NbdFault>
    requires short { header ≤ 28 }
    requires fits { length into.old < 4294967296 }
    ensures { (k : List ℕ → Program) → TakesTo (source_view S.Source)
        (takes_data header (length into.old) k) (after_data result into.new k)
        input.old input.new }
{
    if into.is_empty() {
        return Ok(());
    }
    let needed = into.len();
    match take_at_least(input, needed, into) {
        Filled::Enough(_) => Ok(()),
        Filled::Short(count) => Err(NbdFault::Input {
            needed: (header + needed) as u64,
            took: (header + count) as u64,
        }),
        Filled::Failed => Err(NbdFault::InputFault),
    }
}

/// Takes the bytes after a header, and drops them.
pub(crate) fn drop_data<S: Source>(
    input: &mut S,
    header: usize,
    count: u32,
    buffer: &mut [u8],
) -> Result<(), NbdFault>
    requires short { header ≤ 28 }
    requires room { length buffer.old ≡ BLOCKS }
    ensures { (bytes : List ℕ) × ((k : List ℕ → Program) →
        TakesTo (source_view S.Source)
        (takes_data header count k) (after_data result bytes k)
        input.old input.new) }
{
    let needed = count as usize;
    let mut dropped = 0;
    while dropped < needed {
        let most = buffer.len().min(needed - dropped);
        match take_at_least(input, most, &mut buffer[..most]) {
            Filled::Enough(more) => dropped += more,
            Filled::Short(more) => {
                return Err(NbdFault::Input {
                    needed: (header + needed) as u64,
                    took: (header + dropped + more) as u64,
                });
            }
            Filled::Failed => return Err(NbdFault::InputFault),
        }
    }
    Ok(())
}

/// Takes the bytes after the header of a request. Bytes that are to be written are then in the buffer, after as many as
/// their first block has before them.
pub(crate) fn take_request_data<S: Source>(
    input: &mut S,
    request: &Request,
    size: u64,
    buffer: &mut [u8],
) -> Result<(), NbdFault>
    requires { length buffer.old ≡ BLOCKS }
    ensures { TakesData (source_view S.Source) size request.now result buffer.new
        input.old input.new }
{
    let length = request.data_length();
    if request.is_too_long() || request.is_past(size) {
        return drop_data(input, REQUEST_LENGTH, length, buffer);
    }
    let start = request.skipped();
    take_data(
        input,
        REQUEST_LENGTH,
        &mut buffer[start..start + length as usize],
    )
}

/// Checks that the input ends at a place where no message may begin any more.
pub(crate) fn take_end<S: Source>(input: &mut S, place: MessagePosition) -> Result<(), NbdFault>
    ensures { TakesTo (source_view S.Source)
        (comes_too_late place.number) (Over (status_of result)) input.old input.new }
{
    match take_at_least(input, 1, &mut [0]) {
        Filled::Enough(_) => Err(NbdFault::BadMessage(place.number)),
        Filled::Short(_) => Ok(()),
        Filled::Failed => Err(NbdFault::InputFault),
    }
}

/// Writes the bytes to the output.
pub(crate) fn put<K: Sink>(output: &mut K, bytes: &[u8]) -> Result<(), NbdFault>
    ensures { (rest : Program) → PutsTo (sink_view K.Sink)
        (Put bytes.now rest) (after_done result rest) output.old output.new }
{
    match put_all(output, bytes) {
        Ok(()) => Ok(()),
        Err(_) => Err(NbdFault::OutputFault),
    }
}

/// Writes a reply as one piece: its header and its bytes. The bytes are in the buffer after room for a header, which is
/// filled in right before them.
pub(crate) fn put_reply<K: Sink>(
    output: &mut K,
    reply: Reply,
    cookie: u64,
    buffer: &mut [u8],
) -> Result<(), NbdFault>
    requires { REPLY_LENGTH + reply.start + reply.length ≤ length buffer.old }
    ensures { (rest : Program) → PutsTo (sink_view K.Sink)
        (Put (header_of reply.error cookie ++ data_of reply (drop REPLY_LENGTH buffer.old)) rest)
        (after_done result rest) output.old output.new }
{
    let end = REPLY_LENGTH + reply.start;
    buffer[reply.start..end].copy_from_slice(simple_reply(reply.error, cookie).bytes());
    put(output, &buffer[reply.start..end + reply.length])
}
