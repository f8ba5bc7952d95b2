// A session: a client's flags, options, and requests.
ghost use Rattle.std.specs.Prelude.{◌≡◌, ℕ, IfOk, IfSome, length};
ghost use Rattle.stair_array.specs.Promise.{Opened};
ghost use Rattle.stair_command.specs.Devices.{ExecutesWith, device_view, devices};
ghost use Rattle.stair_command.specs.Outside.{outside, views};
ghost use Rattle.stair_command.specs.Program.{Over, Program};
ghost use Rattle.stair_command.specs.Rack.{rack_view};
ghost use Rattle.stair_command.specs.Talks.{TalksTo};
ghost use Rattle.stair_watch.specs.WatcherList.{AllStay};
ghost use Rattle.stair_nbd.specs.Client.{SESSION_LIMIT as LIMIT, client_program, options, requests, shakes_hands, size_of, status_of};
ghost use Rattle.stair_nbd.specs.Sessions.{BUFFER as ROOM, IsPlace, after_options};

use crate::blocks::{array_size, respond};
use crate::fault::NbdFault;
use crate::place::MessagePosition;
use crate::taking::{put, put_reply, take_data, take_end, take_header, take_request_data};
use crate::wire::{
    ABORT, ACK, ERR_UNSUP, EXPORT_NAME, FLAGS_LENGTH, OPTION_LENGTH, OptionRequest, REPLY_LENGTH,
    REQUEST_LENGTH, Request, export_answer, greeting, option_reply, read_flags,
};
use stair_base::{SECTOR, StripeCode};
use stair_command::ObservedArray;
use stair_rack::{Rack, Sink, Source, Watcher};

/// The size of a session's buffer in bytes. It has room for the header of a reply and for all blocks that a request can
/// touch, one more than its most bytes fill.
pub const BUFFER: usize = REPLY_LENGTH + 65_537 * SECTOR;

/// Serves one client of an open array, from the greeting until its input ends or it disconnects.
///
/// Each reply is written before more is taken. READ reads all blocks that it touches before its reply begins. WRITE
/// first reads what its first and its last block hold around its bytes; then it writes the blocks of a stripe as one
/// step.
///
/// A reply's error is EIO if a step was refused, for whatever reason, or if an earlier one stopped the array. The
/// blocks that were written before the error stay written. The reply to a WRITE comes after all its blocks are written;
/// FLUSH does nothing.
///
/// The buffer has [`BUFFER`] bytes. It allocates no other memory.
pub fn session<C: StripeCode, R: Rack, S: Source, K: Sink>(
    array: &mut ObservedArray<C>,
    rack: &mut R,
    buffer: &mut [u8],
    input: &mut S,
    output: &mut K,
    watchers: &mut Vec<Box<dyn Watcher>>,
) -> Result<(), NbdFault>
    requires room { length buffer.old ≡ ROOM }
    requires stay { AllStay hears watchers.old.items }
    ensures means { (counter : ℕ) → ExecutesWith
        (device_view (rack_view R.Rack) hears) (views S.Source K.Sink)
        (client_program array.old.member.array.geometry) (Over (status_of result))
        (outside input.old output.old counter) (outside input.new output.new counter)
        (devices rack.old (Opened array.old) watchers.old.items)
        (devices rack.new (Opened array.new) watchers.new.items) }
    ensures stay { AllStay hears watchers.new.items }
{
    let size = array_size(array);
    match shake_hands(size, buffer, input, output)? {
        Some(place) => answer_requests(place, array, rack, buffer, input, output, watchers),
        None => Ok(()),
    }
}

// Does the handshake, up to the option that names the export, and returns where the first request begins. It returns
// None if the client or the input ended before.
fn shake_hands<S: Source, K: Sink>(
    size: u64,
    buffer: &mut [u8],
    input: &mut S,
    output: &mut K,
) -> Result<Option<MessagePosition>, NbdFault>
    requires room { length buffer.old ≡ ROOM }
    ensures talks { (rest : (number taken : ℕ) → Program) → TalksTo
        (views S.Source K.Sink)
        (shakes_hands size rest) (after_options result rest)
        input.old input.new output.old output.new }
    ensures place { IfOk result (λ place. IfSome place IsPlace) }
{
    put(output, greeting().bytes())?;
    let mut flags = [0; FLAGS_LENGTH];
    if !take_header(input, &mut flags)? {
        return Ok(None);
    }
    let Some(brief) = read_flags(&flags) else {
        return Err(NbdFault::BadMessage(1));
    };
    let export = export_answer(size, brief);
    answer_options(export.bytes(), buffer, input, output)
}

// Answers options up to the one that names the export.
fn answer_options<S: Source, K: Sink>(
    export: &[u8],
    buffer: &mut [u8],
    input: &mut S,
    output: &mut K,
) -> Result<Option<MessagePosition>, NbdFault>
    requires room { length buffer.old ≡ ROOM }
    ensures talks { (rest : (number taken : ℕ) → Program) → TalksTo
        (views S.Source K.Sink)
        (options export.now rest LIMIT 2 4) (after_options result rest)
        input.old input.new output.old output.new }
    ensures place { IfOk result (λ place. IfSome place IsPlace) }
{
    let mut place = MessagePosition {
        number: 2,
        taken: FLAGS_LENGTH as u64,
    };
    while !place.is_too_late() {
        let mut header = [0; OPTION_LENGTH];
        if !take_header(input, &mut header)? {
            return Ok(None);
        }
        let Some(OptionRequest { option, length }) = OptionRequest::read(&header) else {
            return Err(NbdFault::BadMessage(place.number));
        };
        let length = length as usize;
        take_data(input, OPTION_LENGTH, &mut buffer[..length])?;
        let next = place.behind((OPTION_LENGTH + length) as u64);
        if option == EXPORT_NAME {
            put(output, export)?;
            return Ok(Some(next));
        }
        if option == ABORT {
            put(output, option_reply(ABORT, ACK).bytes())?;
            return Ok(None);
        }
        put(output, option_reply(option, ERR_UNSUP).bytes())?;
        place = next;
    }
    take_end(input, place)?;
    Ok(None)
}

// Answers requests until the client disconnects, or the input ends before one.
fn answer_requests<C: StripeCode, R: Rack, S: Source, K: Sink>(
    mut place: MessagePosition,
    array: &mut ObservedArray<C>,
    rack: &mut R,
    buffer: &mut [u8],
    input: &mut S,
    output: &mut K,
    watchers: &mut Vec<Box<dyn Watcher>>,
) -> Result<(), NbdFault>
    requires place { IsPlace place }
    requires room { length buffer.old ≡ ROOM }
    requires stay { AllStay hears watchers.old.items }
    ensures means { (counter : ℕ) → ExecutesWith
        (device_view (rack_view R.Rack) hears) (views S.Source K.Sink)
        (requests array.old.member.array.geometry LIMIT place.number place.taken) (Over (status_of result))
        (outside input.old output.old counter) (outside input.new output.new counter)
        (devices rack.old (Opened array.old) watchers.old.items)
        (devices rack.new (Opened array.new) watchers.new.items) }
    ensures stay { AllStay hears watchers.new.items }
{
    let size = array_size(array);
    while !place.is_too_late() {
        let mut header = [0; REQUEST_LENGTH];
        if !take_header(input, &mut header)? {
            return Ok(());
        }
        let Some(request) = Request::read(&header) else {
            return Err(NbdFault::BadMessage(place.number));
        };
        if request.is_disconnect() {
            return Ok(());
        }
        take_request_data(input, &request, size, &mut buffer[REPLY_LENGTH..])?;
        let reply = respond(&request, array, rack, &mut buffer[REPLY_LENGTH..], watchers);
        put_reply(output, reply, request.cookie, buffer)?;
        place = place.behind(REQUEST_LENGTH as u64 + u64::from(request.data_length()));
    }
    take_end(input, place)
}
