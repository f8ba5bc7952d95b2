// Reads and writes the blocks of an array for a request.
ghost use Rattle.std.specs.Prelude.{◌≡◌, ◌+◌, ◌*◌, ◌/◌, ◌^◌, ◌≤◌, ◌<◌, ℕ, List, [], false, length, take, drop};
ghost use Rattle.stair_array.specs.Promise.{Opened};
ghost use Rattle.stair_model.specs.Geometry.{block_count};
ghost use Rattle.stair_model.specs.Stripe.{SECTOR as BYTES};
ghost use Rattle.stair_command.specs.Comes.{ExecutesOnDevices};
ghost use Rattle.stair_command.specs.Devices.{device_view, devices};
ghost use Rattle.stair_command.specs.Program.{Program};
ghost use Rattle.stair_command.specs.Rack.{rack_view};
ghost use Rattle.stair_watch.specs.WatcherList.{AllStay};
ghost use Rattle.stair_nbd.specs.Client.{
  Comes,
  around,
  end_block,
  end_within,
  first_block,
  is_past,
  is_too_long,
  reads_back,
  reads_for,
  reads_front,
  reads_on,
  responds,
  size_of,
  skipped as bytes_skipped,
  touched as blocks_touched,
  writes_blocks,
  writes_for,
  writes_on,
};
ghost use Rattle.stair_nbd.specs.Wire.{data_length};
ghost use Rattle.stair_nbd.specs.Sessions.{BLOCKS, IsKept, after_steps, data_of};

use crate::reply::Reply;
use crate::taking::DATA_LIMIT;
use crate::wire::{Command, ReplyError, Request};
use stair_array::ArrayFault;
use stair_base::{SECTOR, StripeCode};
use stair_command::{ObservedArray, piece_blocks};
use stair_rack::{Rack, Watcher};

impl Request {
    /// Returns whether it has more bytes than a request may.
    pub(crate) fn is_too_long(&self) -> bool
        ensures { result ≡ is_too_long self.now }
    {
        self.length > DATA_LIMIT
    }

    /// Returns whether it ends past an array of `size` bytes.
    pub(crate) fn is_past(&self, size: u64) -> bool
        ensures { result ≡ is_past size self.now }
    {
        self.offset > size || u64::from(self.length) > size - self.offset
    }

    /// Returns how many bytes of its first block come before its own.
    pub(crate) fn skipped(&self) -> usize
        ensures value { result ≡ bytes_skipped self.now }
        ensures within { result < BYTES }
    {
        (self.offset % SECTOR as u64) as usize
    }

    /// Returns the first of the blocks that it touches, if any.
    fn first_block(&self) -> u64
        ensures { result ≡ first_block self.now }
    {
        self.offset / SECTOR as u64
    }

    // Return the block in which its bytes end, and how many bytes of that block come before their end.
    fn end_block(&self) -> u64
        requires { self.now.offset + self.now.length < 2 ^ 64 }
        ensures { result ≡ end_block self.now }
    {
        (self.offset + u64::from(self.length)) / SECTOR as u64
    }

    fn end_within(&self) -> usize
        requires { self.now.offset + self.now.length < 2 ^ 64 }
        ensures value { result ≡ end_within self.now }
        ensures within { result < BYTES }
    {
        ((self.offset + u64::from(self.length)) % SECTOR as u64) as usize
    }

    /// Returns how many blocks it touches.
    fn touched(&self) -> usize
        requires { is_too_long self.now ≡ false }
        ensures value { result ≡ blocks_touched (bytes_skipped self.now) self.now.length }
        ensures within { BYTES * result ≤ BLOCKS }
        ensures covers { bytes_skipped self.now + self.now.length ≤ BYTES * result + BYTES }
    {
        match self.length as usize {
            0 => 0,
            length => (self.skipped() + length - 1) / SECTOR + 1,
        }
    }
}

/// Returns the size of an array in bytes.
pub(crate) fn array_size<C: StripeCode>(array: &ObservedArray<C>) -> u64
    ensures { result ≡ size_of array.now.member.array.geometry }
{
    SECTOR as u64 * array.geometry().blocks()
}

/// Does on the array what a request asks for, and returns the reply. The bytes of a WRITE are in the buffer, where
/// those of a READ will be.
pub(crate) fn respond<C: StripeCode, R: Rack>(
    request: &Request,
    array: &mut ObservedArray<C>,
    rack: &mut R,
    buffer: &mut [u8],
    watchers: &mut Vec<Box<dyn Watcher>>,
) -> Reply
    requires room { length buffer.old ≡ BLOCKS }
    requires stay { AllStay hears watchers.old.items }
    ensures comes { (bytes : List ℕ) → IsKept (size_of array.old.member.array.geometry) request.now (data_length request.now) bytes buffer.old
        → (k : Comes) → ExecutesOnDevices
        (device_view (rack_view R.Rack) hears)
        (responds array.old.member.array.geometry request.now bytes k request.now.command)
        (k result.error (data_of result buffer.new))
        (devices rack.old (Opened array.old) watchers.old.items)
        (devices rack.new (Opened array.new) watchers.new.items) }
    ensures geometry { array.new.member.array.geometry ≡ array.old.member.array.geometry }
    ensures within { result.start + result.length ≤ length buffer.new }
    ensures stay { AllStay hears watchers.new.items }
{
    match request.command {
        Command::Read => read(request, array, rack, buffer, watchers),
        Command::Write => Reply::of(write(request, array, rack, buffer, watchers)),
        Command::Disconnect | Command::Flush => Reply::of(ReplyError::None),
        Command::Other => Reply::of(ReplyError::Invalid),
    }
}

// Reads the blocks that a request touches.
fn read<C: StripeCode, R: Rack>(
    request: &Request,
    array: &mut ObservedArray<C>,
    rack: &mut R,
    buffer: &mut [u8],
    watchers: &mut Vec<Box<dyn Watcher>>,
) -> Reply
    requires room { length buffer.old ≡ BLOCKS }
    requires stay { AllStay hears watchers.old.items }
    ensures comes { (k : Comes) → ExecutesOnDevices
        (device_view (rack_view R.Rack) hears)
        (reads_for array.old.member.array.geometry request.now k)
        (k result.error (data_of result buffer.new))
        (devices rack.old (Opened array.old) watchers.old.items)
        (devices rack.new (Opened array.new) watchers.new.items) }
    ensures geometry { array.new.member.array.geometry ≡ array.old.member.array.geometry }
    ensures within { result.start + result.length ≤ length buffer.new }
    ensures stay { AllStay hears watchers.new.items }
{
    let size = array_size(array);
    if request.is_too_long() || request.is_past(size) {
        return Reply::of(ReplyError::Invalid);
    }
    let whole = SECTOR * request.touched();
    match read_blocks(
        request.first_block(),
        array,
        rack,
        &mut buffer[..whole],
        watchers,
    ) {
        Ok(()) => Reply {
            error: ReplyError::None,
            start: request.skipped(),
            length: request.length as usize,
        },
        Err(_) => Reply::of(ReplyError::Io),
    }
}

// Reads blocks from `first` on, up to the first that is refused.
fn read_blocks<C: StripeCode, R: Rack>(
    first: u64,
    array: &mut ObservedArray<C>,
    rack: &mut R,
    into: &mut [u8],
    watchers: &mut Vec<Box<dyn Watcher>>,
) -> Result<(), ArrayFault>
    requires whole { BYTES * (length into.old / BYTES) ≡ length into.old }
    requires fits { first + length into.old < 2 ^ 64 }
    requires stay { AllStay hears watchers.old.items }
    ensures comes { (refused : Program) (k : List ℕ → Program) → ExecutesOnDevices
        (device_view (rack_view R.Rack) hears)
        (reads_on first (length into.old / BYTES) [] refused k)
        (after_steps result refused (k into.new))
        (devices rack.old (Opened array.old) watchers.old.items)
        (devices rack.new (Opened array.new) watchers.new.items) }
    ensures geometry { array.new.member.array.geometry ≡ array.old.member.array.geometry }
    ensures stay { AllStay hears watchers.new.items }
{
    let mut block = [0; SECTOR];
    for i in 0..into.len() / SECTOR {
        array.read(rack, first + i as u64, &mut block, watchers)?;
        into[SECTOR * i..SECTOR * (i + 1)].copy_from_slice(&block);
    }
    Ok(())
}

// Writes the bytes of a request. Blocks that they touch in part keep what they hold around them.
fn write<C: StripeCode, R: Rack>(
    request: &Request,
    array: &mut ObservedArray<C>,
    rack: &mut R,
    buffer: &mut [u8],
    watchers: &mut Vec<Box<dyn Watcher>>,
) -> ReplyError
    requires room { length buffer.old ≡ BLOCKS }
    requires stay { AllStay hears watchers.old.items }
    ensures comes { (bytes : List ℕ) → IsKept (size_of array.old.member.array.geometry) request.now request.now.length bytes buffer.old
        → (k : Comes) → ExecutesOnDevices
        (device_view (rack_view R.Rack) hears)
        (writes_for array.old.member.array.geometry request.now bytes k) (k result [])
        (devices rack.old (Opened array.old) watchers.old.items)
        (devices rack.new (Opened array.new) watchers.new.items) }
    ensures geometry { array.new.member.array.geometry ≡ array.old.member.array.geometry }
    ensures stay { AllStay hears watchers.new.items }
{
    if request.is_too_long() {
        return ReplyError::Invalid;
    }
    if request.is_past(array_size(array)) {
        return ReplyError::NoSpace;
    }
    if request.length == 0 {
        return ReplyError::None;
    }
    match write_touched(request, array, rack, buffer, watchers) {
        Ok(()) => ReplyError::None,
        Err(_) => ReplyError::Io,
    }
}

// Writes the blocks that a request touches.
fn write_touched<C: StripeCode, R: Rack>(
    request: &Request,
    array: &mut ObservedArray<C>,
    rack: &mut R,
    buffer: &mut [u8],
    watchers: &mut Vec<Box<dyn Watcher>>,
) -> Result<(), ArrayFault>
    requires room { length buffer.old ≡ BLOCKS }
    requires short { is_too_long request.now ≡ false }
    requires inside { is_past (size_of array.old.member.array.geometry) request.now ≡ false }
    requires fits { request.now.offset + request.now.length < 2 ^ 64 }
    requires some { 0 < request.now.length }
    requires stay { AllStay hears watchers.old.items }
    ensures comes { (refused done : Program) → ExecutesOnDevices
        (device_view (rack_view R.Rack) hears)
        (writes_blocks array.old.member.array.geometry request.now
        (take request.now.length (drop (bytes_skipped request.now) buffer.old)) refused done)
        (after_steps result refused done)
        (devices rack.old (Opened array.old) watchers.old.items)
        (devices rack.new (Opened array.new) watchers.new.items) }
    ensures geometry { array.new.member.array.geometry ≡ array.old.member.array.geometry }
    ensures stay { AllStay hears watchers.new.items }
{
    let whole = SECTOR * request.touched();
    read_around(request, array, rack, &mut buffer[..whole], watchers)?;
    write_blocks(
        request.first_block(),
        array,
        rack,
        &buffer[..whole],
        watchers,
    )
}

// Reads what the first and the last block hold around the bytes of a request.
fn read_around<C: StripeCode, R: Rack>(
    request: &Request,
    array: &mut ObservedArray<C>,
    rack: &mut R,
    blocks: &mut [u8],
    watchers: &mut Vec<Box<dyn Watcher>>,
) -> Result<(), ArrayFault>
    requires whole { length blocks.old ≡ BYTES * blocks_touched (bytes_skipped request.now) request.now.length }
    requires some { 0 < request.now.length }
    requires fits { request.now.offset + request.now.length < 2 ^ 64 }
    requires stay { AllStay hears watchers.old.items }
    ensures comes { (refused : Program) (k : List ℕ → Program) → ExecutesOnDevices
        (device_view (rack_view R.Rack) hears)
        (reads_front request.now refused (λ front. reads_back request.now front refused
        (λ back. k (around request.now front
        (take request.now.length (drop (bytes_skipped request.now) blocks.old)) back))))
        (after_steps result refused (k blocks.new))
        (devices rack.old (Opened array.old) watchers.old.items)
        (devices rack.new (Opened array.new) watchers.new.items) }
    ensures geometry { array.new.member.array.geometry ≡ array.old.member.array.geometry }
    ensures stay { AllStay hears watchers.new.items }
{
    let mut block = [0; SECTOR];
    let before = request.skipped();
    if before > 0 {
        array.read(rack, request.first_block(), &mut block, watchers)?;
        blocks[..before].copy_from_slice(&block[..before]);
    }
    let behind = request.end_within();
    if behind > 0 {
        if before == 0 || request.end_block() != request.first_block() {
            array.read(rack, request.end_block(), &mut block, watchers)?;
        }
        let end = before + request.length as usize;
        blocks[end..].copy_from_slice(&block[behind..]);
    }
    Ok(())
}

// Writes blocks from `first` on, up to the first step that is refused. Each step writes up to the end of a stripe.
fn write_blocks<C: StripeCode, R: Rack>(
    first: u64,
    array: &mut ObservedArray<C>,
    rack: &mut R,
    blocks: &[u8],
    watchers: &mut Vec<Box<dyn Watcher>>,
) -> Result<(), ArrayFault>
    requires whole { BYTES * (length blocks.now / BYTES) ≡ length blocks.now }
    requires within { first + length blocks.now / BYTES ≤ block_count array.old.member.array.geometry }
    requires stay { AllStay hears watchers.old.items }
    ensures comes { (refused done : Program) → ExecutesOnDevices
        (device_view (rack_view R.Rack) hears)
        (writes_on array.old.member.array.geometry (length blocks.now / BYTES) first
        (length blocks.now / BYTES) blocks.now refused done)
        (after_steps result refused done)
        (devices rack.old (Opened array.old) watchers.old.items)
        (devices rack.new (Opened array.new) watchers.new.items) }
    ensures geometry { array.new.member.array.geometry ≡ array.old.member.array.geometry }
    ensures stay { AllStay hears watchers.new.items }
{
    let geometry = array.geometry();
    let mut done = 0;
    while done < blocks.len() {
        let block = first + (done / SECTOR) as u64;
        let left = (blocks.len() - done) / SECTOR;
        let piece = SECTOR * usize::from(piece_blocks(&geometry, block, left as u64));
        array.write_blocks(rack, block, &blocks[done..done + piece], watchers)?;
        done += piece;
    }
    Ok(())
}
