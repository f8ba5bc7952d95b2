//! Whole calls of `stair` over racks in memory, their results, and what a rack holds then. For tests only.
#![tactic(auto)]

ghost use Rattle.std.specs.Prelude.{◌≡◌, ◌<◌};
ghost use Rattle.stair_watch.specs.WatcherList.{AllStay};

use stair_engine::{Status, stair};
use stair_gf::Steps;
use stair_member::Why;
use stair_memrack::{Act, MemRack, What};
use stair_rack::{Event, Got, MemSink, MemSource, Rack, Sink, Watcher};
use stair_watch::{Kept, add};
use std::alloc::{AllocError, Global};
use std::marker::Brand;
use std::sync::ledger::{Blank, Ledger};

// CALLS

/// How a source gives its bytes, and how many a sink takes.
#[derive(Clone, Copy)]
pub struct Ends {
    /// The most bytes in one answer.
    pub piece: usize,
    /// The byte at which the source fails.
    pub fails_at: Option<u64>,
    /// The most bytes that the sink takes.
    pub room: usize,
}

/// No fault, and all at once.
pub const WHOLE: Ends = Ends {
    piece: 10_000,
    fails_at: None,
    room: 10_000,
};

/// The first three events that a watcher kept, or `None` if the watcher has left.
pub type Told = Option<[Option<Event>; 3]>;

/// The events of a watcher that remains and to which no event was reported.
pub const NOTHING_TOLD: Told = Some([None; 3]);

/// Returns the events of a watcher that kept these, in order.
pub fn told(events: &[Event]) -> Told {
    let mut kept = [None; 3];
    for (slot, event) in kept.iter_mut().zip(events.iter()) {
        *slot = Some(*event);
    }
    Some(kept)
}

/// Returns the events of a watcher to which only a fence of this slot was reported.
pub fn fenced(slot: u8) -> Told {
    told(&[Event::Fenced { slot }])
}

/// The result of a call.
#[derive(Drop)]
pub struct Came {
    pub status: Status,
    pub put: Vec<u8>,
    pub told: Told,
    /// The number of bytes of the input that were not taken.
    pub left: usize,
}

/// Calls `stair` with the words of a line.
pub fn call<R: Rack>(
    alloc: Global,
    rack: &mut R,
    line: &str,
    input: &[u8],
    ends: Ends,
) -> Result<Came, AllocError> {
    let words = words_of(alloc, line)?;
    let mut sink = MemSink::new(alloc, ends.room)?;
    let ended = call_into(alloc, rack, &words, input, ends, &mut sink)?;
    Ok(Came {
        status: ended.status,
        put: sink.bytes().to_vec(alloc)?,
        told: ended.told,
        left: ended.left,
    })
}

/// The result of a call, without its output.
#[derive(Clone, Copy)]
pub struct Ended {
    pub status: Status,
    told: Told,
    left: usize,
}

/// Calls `stair` with these words and this sink.
pub fn call_into<R: Rack, K: Sink>(
    alloc: Global,
    rack: &mut R,
    words: &[String],
    input: &[u8],
    ends: Ends,
    sink: &mut K,
) -> Result<Ended, AllocError> {
    let mut watchers = Vec::new(alloc);
    add(&mut watchers, Box::new(alloc, Kept::new(alloc, 100)?)?)?;
    let (status, left) = call_watched(alloc, rack, words, input, ends, sink, &mut watchers)?;
    let told = match watchers.pop() {
        Some(kept) => Some([kept.kept(0), kept.kept(1), kept.kept(2)]),
        None => None,
    };
    Ok(Ended { status, told, left })
}

/// Calls `stair` with these words, this sink and these watchers. Returns the status, and how many bytes of the input
/// were not taken.
pub fn call_watched<R: Rack, K: Sink>(
    alloc: Global,
    rack: &mut R,
    words: &[String],
    input: &[u8],
    ends: Ends,
    sink: &mut K,
    watchers: &mut Vec<Box<dyn Watcher>>,
) -> Result<(Status, usize), AllocError>
    requires { AllStay hears watchers.old.items }
    ensures { AllStay hears watchers.new.items }
{
    call_on::<R, K, Brand>(
        Blank::new(1),
        alloc,
        rack,
        words,
        input,
        ends,
        sink,
        watchers,
    )
}

// The same, with the counter on a ledger of its own.
fn call_on<R: Rack, K: Sink, L: Ledger>(
    blank: Blank,
    alloc: Global,
    rack: &mut R,
    words: &[String],
    input: &[u8],
    ends: Ends,
    sink: &mut K,
    watchers: &mut Vec<Box<dyn Watcher>>,
) -> Result<(Status, usize), AllocError>
    requires name { blank.name ≡ L.name }
    requires parts { blank.parts ≡ L.parts }
    requires some { 0 < L.parts }
    requires stay { AllStay hears watchers.old.items }
    ensures stay { AllStay hears watchers.new.items }
{
    let mut source = MemSource::new(alloc, input, ends.piece.max(1), ends.fails_at)?;
    let mut steps = Steps::<L>::new(blank);
    let status = stair(alloc, words, rack, &mut source, sink, watchers, &mut steps);
    Ok((status, source.left().len()))
}

/// Returns the words of a line, with one space between two of them.
pub fn words_of(alloc: Global, line: &str) -> Result<Vec<String>, AllocError> {
    let mut words = Vec::new(alloc);
    for word in line.split(' ') {
        words.push(String::from_str(alloc, word)?)?;
    }
    Ok(words)
}

/// Returns the status of too few slots. The first ones have these reasons, and the others are present.
pub fn too_few(first: &[Why]) -> Status {
    let mut whys = [Why::Here; 32];
    for (slot, why) in whys.iter_mut().zip(first.iter()) {
        *slot = *why;
    }
    Status::TooFew(whys)
}

/// Returns blocks in order, each filled with one of these bytes.
pub fn blocks_of(alloc: Global, fillings: &[u8]) -> Result<Vec<u8>, AllocError> {
    let mut bytes = Vec::new(alloc);
    for filling in fillings {
        bytes.extend_from_slice(&[*filling; 512])?;
    }
    Ok(bytes)
}

/// Returns a text with each `@` replaced by the 1,024 digits of a sector of this byte.
pub fn with_digits(alloc: Global, text: &str, digits: [u8; 2]) -> Result<Vec<u8>, AllocError> {
    let mut bytes = Vec::new(alloc);
    for byte in text.as_bytes() {
        if *byte == b'@' {
            for _ in 0..512 {
                bytes.extend_from_slice(&digits)?;
            }
        } else {
            bytes.push(*byte)?;
        }
    }
    Ok(bytes)
}

// RACKS

/// The number of calls that a rack keeps.
pub const CALLS: u32 = 8000;

/// The shape of an array: its geometry text, its number of devices, and the sectors of each.
#[derive(Clone, Copy)]
pub struct Shape {
    pub text: &'static str,
    pub devices: u8,
    pub sectors: u32,
}

/// 15 blocks, five in each of three stripes. A device has the body in sectors 3 to 10, and the stripes after it.
pub const FOUR: Shape = Shape {
    text: "n = 4\nm = 1\nr = 2\ne = [1]\nstripes = 3\nid = '00000000000000000000000000000004'\n",
    devices: 4,
    sectors: 17,
};

/// Returns an act: this happens before the call of the rack with this number.
pub fn act(at: u32, what: What) -> Act {
    Act { at, what }
}

/// Returns a rack on which `create` made this array.
pub fn created(alloc: Global, shape: &Shape) -> Result<MemRack, AllocError> {
    let mut rack = MemRack::new(alloc, shape.devices.min(32), shape.sectors, &[], CALLS)?;
    let _ = call(alloc, &mut rack, "create", shape.text.as_bytes(), WHOLE)?;
    Ok(rack)
}

/// Returns what a crash leaves of a rack, with each pending sector torn. Then these acts happen.
pub fn restarted(alloc: Global, rack: MemRack, acts: &[Act]) -> Result<MemRack, AllocError> {
    rack.after_crash(alloc, &[9; 100], acts, CALLS)
}

/// Returns a rack with a new array, on which no call was made yet, and to which these acts happen.
pub fn with_array(alloc: Global, shape: &Shape, acts: &[Act]) -> Result<MemRack, AllocError> {
    restarted(alloc, created(alloc, shape)?, acts)
}

/// The bytes that fill the blocks of the array of four devices.
pub const FILLINGS: [u8; 15] = [1, 2, 3, 4, 5, 6, 7, 8, 9, 10, 11, 12, 13, 14, 15];

/// Returns a rack with the array of four devices, all of whose blocks were written, to which these acts happen.
pub fn with_blocks(alloc: Global, acts: &[Act]) -> Result<MemRack, AllocError> {
    let mut rack = created(alloc, &FOUR)?;
    let blocks = blocks_of(alloc, &FILLINGS)?;
    let _ = call(alloc, &mut rack, "write 0 15", &blocks, WHOLE)?;
    restarted(alloc, rack, acts)
}

/// Returns what a sector reads as, or `None` if it cannot be read.
pub fn sector(rack: &mut MemRack, slot: u8, number: u32) -> Option<[u8; 512]> {
    let slot = slot.min(31);
    let mut into = [0; 512];
    match rack.read(slot, number, &mut into) {
        Got::Good => Some(into),
        Got::Bad | Got::Gone => None,
    }
}

/// Returns the sectors of four devices from this one on, as they read.
pub fn sectors_of(
    alloc: Global,
    rack: &mut MemRack,
    first: u32,
) -> Result<Vec<Option<[u8; 512]>>, AllocError> {
    let mut sectors = Vec::new(alloc);
    for slot in 0..4 {
        rack.attach(slot);
        for number in first..17 {
            sectors.push(sector(rack, slot, number))?;
        }
    }
    Ok(sectors)
}

/// Replaces the superblocks in both places of four devices by those of the first version, in the first epoch.
pub fn make_older(rack: &mut MemRack) {
    for slot in 0..4 {
        rack.attach(slot);
        if let Some(block) = first_of(rack, slot) {
            rack.write(slot, 0, &block);
            rack.write(slot, 1, &block);
            rack.sync(slot);
        }
    }
}

// The superblock that `create` wrote to a slot, in the first version.
fn first_of(rack: &mut MemRack, slot: u8) -> Option<[u8; 512]> {
    let mut block = sector(rack, slot, 0)?;
    block[7] = b'1';
    Some(block)
}
