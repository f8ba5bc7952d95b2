// What each line of a script does.
ghost use Rattle.std.specs.Prelude.{◌≡◌, ℕ, Bool, false, IfErr, IfOk, OnOk};
ghost use Rattle.stair_array.specs.Promise.{Opened};
ghost use Rattle.stair_engine.specs.Scripts.{
  PutsReply,
  ReplyIsCut,
  admitted_reply as reply_of_admitted,
  does_line,
  line_program,
  read_reply as reply_of_read,
  replies,
  scrubbed_reply as reply_of_scrubbed,
  some_rebuilds,
  wrote_reply as reply_of_wrote,
};
ghost use Rattle.stair_script.specs.declared.line.Line.TheVariants.{Read, Replace, Scrub, Write};
ghost use Rattle.stair_command.specs.Comes.{ExecutesOnDevices};
ghost use Rattle.stair_command.specs.Devices.{device_view, devices, some_left};
ghost use Rattle.stair_command.specs.Fault.{status_of_fault};
ghost use Rattle.stair_command.specs.Outside.{sink_view};
ghost use Rattle.stair_command.specs.Program.{Over, Program, Put};
ghost use Rattle.stair_command.specs.Rack.{rack_view};
ghost use Rattle.stair_watch.specs.WatcherList.{AllStay};

use crate::rebuild::rebuilt_line;
use stair_base::{SECTOR, StripeCode};
use stair_command::{Fault, ObservedArray, put_all};
use stair_mend::Progress;
use stair_rack::{Rack, Sink, Watcher};
use stair_script::{Line, read_line};
use stair_watch::Line as Reply;

/// Does a line of a script, which has this number, and answers its reply, which a blank line has not.
pub(crate) fn take_line<C: StripeCode, R: Rack>(
    array: &mut ObservedArray<C>,
    line: &[u8],
    number: u64,
    rack: &mut R,
    watchers: &mut Vec<Box<dyn Watcher>>,
) -> Result<Option<Reply>, Fault>
    requires stay { AllStay hears watchers.old.items }
    ensures done { IfOk result (λ reply. (rest : Bool → Program) → ExecutesOnDevices
        (device_view (rack_view R.Rack) hears)
        (does_line array.old.member.array.geometry number line.now rest)
        (replies reply (rest (some_left watchers.old.items watchers.new.items)))
        (devices rack.old (Opened array.old) watchers.old.items)
        (devices rack.new (Opened array.new) watchers.new.items)) }
    ensures refused { IfErr result (λ fault. (rest : Bool → Program) → ExecutesOnDevices
        (device_view (rack_view R.Rack) hears)
        (does_line array.old.member.array.geometry number line.now rest) (Over (status_of_fault fault))
        (devices rack.old (Opened array.old) watchers.old.items)
        (devices rack.new (Opened array.new) watchers.new.items)) }
    ensures geometry { array.new.member.array.geometry ≡ array.old.member.array.geometry }
    ensures stay { AllStay hears watchers.new.items }
{
    match read_line(line) {
        Some(said) => do_line(array, said, rack, watchers),
        None => Err(Fault::BadLine(number)),
    }
}

/// Puts out the reply, if there is one.
pub(crate) fn put_reply<K: Sink>(output: &mut K, reply: &Option<Reply>) -> Result<(), Fault>
    ensures put { OnOk result (PutsReply (sink_view K.Sink)
        reply.now output.old output.new) }
    ensures cut { IfErr result (λ fault. ReplyIsCut (sink_view K.Sink)
        reply.now fault output.old output.new) }
{
    if let Some(reply) = reply {
        put_all(output, reply.bytes())?;
    }
    Ok(())
}

// Does what a line says, and answers its reply, which a blank line has not.
fn do_line<C: StripeCode, R: Rack>(
    array: &mut ObservedArray<C>,
    said: Line,
    rack: &mut R,
    watchers: &mut Vec<Box<dyn Watcher>>,
) -> Result<Option<Reply>, Fault>
    requires stay { AllStay hears watchers.old.items }
    ensures done { IfOk result (λ reply. (rest : Bool → Program) → ExecutesOnDevices
        (device_view (rack_view R.Rack) hears)
        (line_program array.old.member.array.geometry said rest)
        (replies reply (rest (some_left watchers.old.items watchers.new.items)))
        (devices rack.old (Opened array.old) watchers.old.items)
        (devices rack.new (Opened array.new) watchers.new.items)) }
    ensures refused { IfErr result (λ fault. (rest : Bool → Program) → ExecutesOnDevices
        (device_view (rack_view R.Rack) hears)
        (line_program array.old.member.array.geometry said rest) (Over (status_of_fault fault))
        (devices rack.old (Opened array.old) watchers.old.items)
        (devices rack.new (Opened array.new) watchers.new.items)) }
    ensures geometry { array.new.member.array.geometry ≡ array.old.member.array.geometry }
    ensures stay { AllStay hears watchers.new.items }
{
    match said {
        Line::Blank => Ok(None),
        Line::Read(block) => Ok(Some(read_block(array, block, rack, watchers)?)),
        Line::Write(block, contents) => {
            write_block(array, block, &contents, rack, watchers)?;
            Ok(Some(wrote_reply(block)))
        }
        Line::Scrub(stripe) => Ok(Some(scrub_stripe(array, stripe, rack, watchers)?)),
        Line::Replace(slot) => {
            admit(array, slot, rack, watchers)?;
            Ok(Some(admitted_reply(slot)))
        }
        Line::Rebuild(steps) => {
            let done = rebuild_some(array, steps, rack, watchers)?;
            Ok(Some(rebuilt_line(done)))
        }
    }
}

// Reads a block, and answers the reply with its digits.
fn read_block<C: StripeCode, R: Rack>(
    array: &mut ObservedArray<C>,
    block: u64,
    rack: &mut R,
    watchers: &mut Vec<Box<dyn Watcher>>,
) -> Result<Reply, Fault>
    requires stay { AllStay hears watchers.old.items }
    ensures done { IfOk result (λ reply. (rest : Bool → Program) → ExecutesOnDevices
        (device_view (rack_view R.Rack) hears)
        (line_program array.old.member.array.geometry (Read block) rest)
        (Put reply (rest (some_left watchers.old.items watchers.new.items)))
        (devices rack.old (Opened array.old) watchers.old.items)
        (devices rack.new (Opened array.new) watchers.new.items)) }
    ensures refused { IfErr result (λ fault. (rest : Bool → Program) → ExecutesOnDevices
        (device_view (rack_view R.Rack) hears)
        (line_program array.old.member.array.geometry (Read block) rest) (Over (status_of_fault fault))
        (devices rack.old (Opened array.old) watchers.old.items)
        (devices rack.new (Opened array.new) watchers.new.items)) }
    ensures geometry { array.new.member.array.geometry ≡ array.old.member.array.geometry }
    ensures stay { AllStay hears watchers.new.items }
{
    let slots = array.geometry().n();
    let mut contents = [0; SECTOR];
    if let Err(fault) = array.read(rack, block, &mut contents, watchers) {
        return Err(Fault::Step { fault, slots });
    }
    Ok(read_reply(block, &contents))
}

// Writes a block.
fn write_block<C: StripeCode, R: Rack>(
    array: &mut ObservedArray<C>,
    block: u64,
    contents: &[u8; SECTOR],
    rack: &mut R,
    watchers: &mut Vec<Box<dyn Watcher>>,
) -> Result<(), Fault>
    requires stay { AllStay hears watchers.old.items }
    ensures done { OnOk result ((rest : Bool → Program) → ExecutesOnDevices
        (device_view (rack_view R.Rack) hears)
        (line_program array.old.member.array.geometry (Write block contents.now) rest)
        (Put (reply_of_wrote block) (rest (some_left watchers.old.items watchers.new.items)))
        (devices rack.old (Opened array.old) watchers.old.items)
        (devices rack.new (Opened array.new) watchers.new.items)) }
    ensures refused { IfErr result (λ fault. (rest : Bool → Program) → ExecutesOnDevices
        (device_view (rack_view R.Rack) hears)
        (line_program array.old.member.array.geometry (Write block contents.now) rest)
        (Over (status_of_fault fault))
        (devices rack.old (Opened array.old) watchers.old.items)
        (devices rack.new (Opened array.new) watchers.new.items)) }
    ensures geometry { array.new.member.array.geometry ≡ array.old.member.array.geometry }
    ensures stay { AllStay hears watchers.new.items }
{
    let slots = array.geometry().n();
    if let Err(fault) = array.write_blocks(rack, block, contents, watchers) {
        return Err(Fault::Step { fault, slots });
    }
    Ok(())
}

// Scrubs a stripe, and answers the reply with the number of its cells that were written anew.
fn scrub_stripe<C: StripeCode, R: Rack>(
    array: &mut ObservedArray<C>,
    stripe: u64,
    rack: &mut R,
    watchers: &mut Vec<Box<dyn Watcher>>,
) -> Result<Reply, Fault>
    requires stay { AllStay hears watchers.old.items }
    ensures done { IfOk result (λ reply. (rest : Bool → Program) → ExecutesOnDevices
        (device_view (rack_view R.Rack) hears)
        (line_program array.old.member.array.geometry (Scrub stripe) rest)
        (Put reply (rest (some_left watchers.old.items watchers.new.items)))
        (devices rack.old (Opened array.old) watchers.old.items)
        (devices rack.new (Opened array.new) watchers.new.items)) }
    ensures refused { IfErr result (λ fault. (rest : Bool → Program) → ExecutesOnDevices
        (device_view (rack_view R.Rack) hears)
        (line_program array.old.member.array.geometry (Scrub stripe) rest) (Over (status_of_fault fault))
        (devices rack.old (Opened array.old) watchers.old.items)
        (devices rack.new (Opened array.new) watchers.new.items)) }
    ensures geometry { array.new.member.array.geometry ≡ array.old.member.array.geometry }
    ensures stay { AllStay hears watchers.new.items }
{
    let geometry = array.geometry();
    let limit = u64::from(geometry.stripes());
    if stripe >= limit {
        return Err(Fault::OutOfRange {
            asked: stripe,
            limit,
        });
    }
    let cells = match array.scrub(rack, stripe as u32, watchers) {
        Ok(cells) => cells,
        Err(fault) => {
            return Err(Fault::Step {
                fault,
                slots: geometry.n(),
            });
        }
    };
    Ok(scrubbed_reply(stripe, cells))
}

// Puts the device in this slot in the place of the one that is down, without a rebuild.
fn admit<C: StripeCode, R: Rack>(
    array: &mut ObservedArray<C>,
    slot: u64,
    rack: &mut R,
    watchers: &mut Vec<Box<dyn Watcher>>,
) -> Result<(), Fault>
    requires stay { AllStay hears watchers.old.items }
    ensures done { OnOk result ((rest : Bool → Program) → ExecutesOnDevices
        (device_view (rack_view R.Rack) hears)
        (line_program array.old.member.array.geometry (Replace slot) rest)
        (Put (reply_of_admitted slot) (rest (some_left watchers.old.items watchers.new.items)))
        (devices rack.old (Opened array.old) watchers.old.items)
        (devices rack.new (Opened array.new) watchers.new.items)) }
    ensures refused { IfErr result (λ fault. (rest : Bool → Program) → ExecutesOnDevices
        (device_view (rack_view R.Rack) hears)
        (line_program array.old.member.array.geometry (Replace slot) rest) (Over (status_of_fault fault))
        (devices rack.old (Opened array.old) watchers.old.items)
        (devices rack.new (Opened array.new) watchers.new.items)) }
    ensures geometry { array.new.member.array.geometry ≡ array.old.member.array.geometry }
    ensures stay { AllStay hears watchers.new.items }
{
    let slots = array.geometry().n();
    let limit = u64::from(slots);
    if slot >= limit {
        return Err(Fault::OutOfRange { asked: slot, limit });
    }
    if let Err(fault) = array.replace(rack, slot as u8, watchers) {
        return Err(Fault::Replace { fault, slots });
    }
    Ok(())
}

// Makes at most so many steps of a rebuild, up to the first that finds nothing, and answers how many there were before that.
fn rebuild_some<C: StripeCode, R: Rack>(
    array: &mut ObservedArray<C>,
    steps: u64,
    rack: &mut R,
    watchers: &mut Vec<Box<dyn Watcher>>,
) -> Result<u64, Fault>
    requires stay { AllStay hears watchers.old.items }
    ensures done { IfOk result (λ done. (k : ℕ → Bool → Program) → ExecutesOnDevices
        (device_view (rack_view R.Rack) hears)
        (some_rebuilds array.old.member.array.geometry.n steps 0 false k)
        (k done (some_left watchers.old.items watchers.new.items))
        (devices rack.old (Opened array.old) watchers.old.items)
        (devices rack.new (Opened array.new) watchers.new.items)) }
    ensures refused { IfErr result (λ fault. (k : ℕ → Bool → Program) → ExecutesOnDevices
        (device_view (rack_view R.Rack) hears)
        (some_rebuilds array.old.member.array.geometry.n steps 0 false k) (Over (status_of_fault fault))
        (devices rack.old (Opened array.old) watchers.old.items)
        (devices rack.new (Opened array.new) watchers.new.items)) }
    ensures geometry { array.new.member.array.geometry ≡ array.old.member.array.geometry }
    ensures stay { AllStay hears watchers.new.items }
{
    let slots = array.geometry().n();
    for done in 0..steps {
        let came = match array.rebuild_step(rack, watchers) {
            Ok(came) => came,
            Err(fault) => return Err(Fault::Rebuild { fault, slots }),
        };
        if let Progress::Nothing = came {
            return Ok(done);
        }
    }
    Ok(steps)
}

// The reply with the digits of a block.
fn read_reply(block: u64, contents: &[u8; SECTOR]) -> Reply
    ensures { result ≡ reply_of_read block contents.now }
{
    let mut digits = [0; 2 * SECTOR];
    // they have twice the length
    let _ = hex::encode_to_slice(contents, &mut digits);
    let mut reply = Reply::new();
    reply.push_named(b"", block);
    reply.push(b" ");
    reply.push(&digits);
    reply.push(b"\n");
    reply
}

// The reply for a block that was written.
fn wrote_reply(block: u64) -> Reply
    ensures { result ≡ reply_of_wrote block }
{
    let mut reply = Reply::new();
    reply.push_named(b"wrote ", block);
    reply.push(b"\n");
    reply
}

// The reply for a stripe in which so many cells were written anew.
fn scrubbed_reply(stripe: u64, cells: u16) -> Reply
    ensures { result ≡ reply_of_scrubbed stripe cells }
{
    let mut reply = Reply::new();
    reply.push_named(b"scrubbed stripe ", stripe);
    reply.push_named(b" cells ", u64::from(cells));
    reply.push(b"\n");
    reply
}

// The reply for a slot whose device was admitted.
fn admitted_reply(slot: u64) -> Reply
    ensures { result ≡ reply_of_admitted slot }
{
    let mut reply = Reply::new();
    reply.push_named(b"admitted ", slot);
    reply.push(b"\n");
    reply
}
