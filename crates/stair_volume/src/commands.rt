// The commands on volumes.
ghost use Rattle.std.specs.Prelude.{◌≡◌, ◌+◌, ◌*◌, ◌^◌, ◌<◌, ◌≤◌, ℕ, [], IfErr, IfOk, Some, replicate};
ghost use Rattle.stair_array.specs.Promise.{Opened};
ghost use Rattle.stair_model.specs.Geometry.{block_count, data_cells};
ghost use Rattle.stair_model.specs.Stripe.{SECTOR as BYTES};
ghost use Rattle.stair_command.specs.Devices.{ExecutesWith, device_view, devices};
ghost use Rattle.stair_command.specs.Outside.{outside, sink_alone, sink_view, views};
ghost use Rattle.stair_command.specs.Program.{Over};
ghost use Rattle.stair_command.specs.Rack.{rack_view};
ghost use Rattle.stair_command.specs.Talks.{PutsTo};
ghost use Rattle.stair_command.specs.Transfers.{reads};
ghost use Rattle.stair_watch.specs.WatcherList.{AllStay};
ghost use Rattle.stair_volume.specs.Commands.{lists, on_table, status_of, volume_program};
ghost use Rattle.stair_volume.specs.Parts.{IsFirstBlock, IsNoRange, MakesSome};

use crate::changing::{make, make_ready, push_volume, remove};
use crate::extent::Extent;
use crate::fault::VolumeFault;
use crate::reading::read_table;
use crate::streams::put;
use crate::table::Table;
use crate::table_fault::TableFault;
use stair_array::ArrayFault;
use stair_base::{SECTOR, StripeCode};
use stair_command::{ObservedArray, Piece, write_input};
use stair_conf::{Name, VolumeJob};
use stair_rack::{Rack, Sink, Source, Watcher};
use stair_watch::Line;

/// Does a command on the volumes of an open array.
///
/// It reads the table first. `Make` writes zeros to all blocks of the new volume, the blocks of a stripe as one step,
/// and then the table; its number of blocks is at least 1. `Read` writes each block to the output before it reads the
/// next. `Write` is [`write_input`]. No other command takes input. What was written before a fault stays written, on
/// the array and to the output.
///
/// `zeros` has as many zero bytes as the blocks of a stripe, and `piece` has room for as many bytes. It allocates no
/// memory.
pub fn volume<C: StripeCode, R: Rack, S: Source, K: Sink>(
    array: &mut ObservedArray<C>,
    rack: &mut R,
    job: &VolumeJob,
    zeros: &[u8],
    piece: &mut Piece,
    input: &mut S,
    output: &mut K,
    watchers: &mut Vec<Box<dyn Watcher>>,
) -> Result<(), VolumeFault>
    requires command { MakesSome job.now }
    requires zeros { zeros.now ≡ replicate (BYTES * data_cells array.old.member.array.geometry) 0 }
    requires room { data_cells array.old.member.array.geometry * BYTES ≤ piece.old.room }
    requires empty { piece.old.bytes ≡ [] }
    requires stay { AllStay hears watchers.old.items }
    ensures means { (counter : ℕ) → ExecutesWith
        (device_view (rack_view R.Rack) hears) (views S.Source K.Sink)
        (volume_program job.now array.old.member.array.geometry)
        (Over (status_of array.old.member.array.geometry.n result))
        (outside input.old output.old counter) (outside input.new output.new counter)
        (devices rack.old (Opened array.old) watchers.old.items)
        (devices rack.new (Opened array.new) watchers.new.items) }
    ensures stay { AllStay hears watchers.new.items }
{
    let mut page = [0; SECTOR];
    array.read(rack, 0, &mut page, watchers)?;
    if let Some(table) = read_table(array.geometry().blocks(), &page) {
        return with_table(
            &table, array, rack, job, zeros, piece, input, output, watchers,
        );
    }
    match job {
        VolumeJob::Ready => {
            let line = make_ready(array, rack, watchers)?;
            put(output, line.bytes())
        }
        _ => Err(VolumeFault::NoTable),
    }
}

// Does a command on an array whose block 0 is this table.
fn with_table<C: StripeCode, R: Rack, S: Source, K: Sink>(
    table: &Table,
    array: &mut ObservedArray<C>,
    rack: &mut R,
    job: &VolumeJob,
    zeros: &[u8],
    piece: &mut Piece,
    input: &mut S,
    output: &mut K,
    watchers: &mut Vec<Box<dyn Watcher>>,
) -> Result<(), VolumeFault>
    requires command { MakesSome job.now }
    requires of { table.now.blocks ≡ block_count array.old.member.array.geometry }
    requires zeros { zeros.now ≡ replicate (BYTES * data_cells array.old.member.array.geometry) 0 }
    requires room { data_cells array.old.member.array.geometry * BYTES ≤ piece.old.room }
    requires empty { piece.old.bytes ≡ [] }
    requires stay { AllStay hears watchers.old.items }
    ensures means { (counter : ℕ) → ExecutesWith
        (device_view (rack_view R.Rack) hears) (views S.Source K.Sink)
        (on_table array.old.member.array.geometry job.now (Some table.now))
        (Over (status_of array.old.member.array.geometry.n result))
        (outside input.old output.old counter) (outside input.new output.new counter)
        (devices rack.old (Opened array.old) watchers.old.items)
        (devices rack.new (Opened array.new) watchers.new.items) }
    ensures stay { AllStay hears watchers.new.items }
{
    match *job {
        VolumeJob::Ready => Err(VolumeFault::TableThere),
        VolumeJob::Make { name, blocks } => {
            let line = make(table, name, blocks, zeros, array, rack, watchers)?;
            put(output, line.bytes())
        }
        VolumeJob::Remove { name } => {
            let line = remove(table, name, array, rack, watchers)?;
            put(output, line.bytes())
        }
        VolumeJob::List => list(table, output),
        VolumeJob::Read { name, block, count } => {
            let first = first_block(table, name, block, count)?;
            put_blocks(first, count, array, rack, output, watchers)
        }
        VolumeJob::Write { name, block, count } => {
            let first = first_block(table, name, block, count)?;
            write_input(array, piece, first, count, rack, input, output, watchers)?;
            Ok(())
        }
    }
}

// Writes a line for each volume.
fn list<K: Sink>(table: &Table, output: &mut K) -> Result<(), VolumeFault>
    ensures { (slots : ℕ) → PutsTo (sink_view K.Sink)
        (lists table.now.entries) (Over (status_of slots result)) output.old output.new }
{
    for entry in table.entries() {
        let mut line = Line::new();
        push_volume(&mut line, &entry.name, entry.extent);
        put(output, line.bytes())?;
    }
    Ok(())
}

// Returns the block of the array that is block `block` of a volume, if the volume has `count` blocks from there on. For
// a count of 0 any block may be returned.
fn first_block(table: &Table, name: Name, block: u64, count: u64) -> Result<u64, VolumeFault>
    ensures ok { IfOk result (IsFirstBlock table.now.entries name block count) }
    ensures refused { IfErr result (IsNoRange table.now.entries name block count) }
    ensures within { IfOk result (λ first. 0 < count → first + count ≤ table.now.blocks) }
    ensures fits { IfOk result (λ first. 0 < count → first + count < 2 ^ 37) }
{
    // brings the invariant of the table into scope: its volumes are within the array
    let _ = table.entries();
    let extent = table.find(name).ok_or(TableFault::NoVolume)?;
    let limit = extent.blocks;
    if count > 0 && (block > limit || count > limit - block) {
        let asked = block.max(limit);
        return Err(VolumeFault::from(ArrayFault::OutOfRange { asked, limit }));
    }
    Ok(extent.first.saturating_add(block))
}

// Writes `count` blocks from `first` on to the output. Each is written before the next is read.
fn put_blocks<C: StripeCode, R: Rack, K: Sink>(
    first: u64,
    blocks: u64,
    array: &mut ObservedArray<C>,
    rack: &mut R,
    output: &mut K,
    watchers: &mut Vec<Box<dyn Watcher>>,
) -> Result<(), VolumeFault>
    requires fits { 0 < blocks → first + blocks < 2 ^ 37 }
    requires stay { AllStay hears watchers.old.items }
    ensures means { (counter : ℕ) → ExecutesWith
        (device_view (rack_view R.Rack) hears)
        (sink_alone K.Sink)
        (reads array.old.member.array.geometry first blocks)
        (Over (status_of array.old.member.array.geometry.n result))
        (outside tt output.old counter) (outside tt output.new counter)
        (devices rack.old (Opened array.old) watchers.old.items)
        (devices rack.new (Opened array.new) watchers.new.items) }
    ensures stay { AllStay hears watchers.new.items }
{
    let mut block = [0; SECTOR];
    for done in 0..blocks {
        array.read(rack, first + done, &mut block, watchers)?;
        put(output, &block)?;
    }
    Ok(())
}
