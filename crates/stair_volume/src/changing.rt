// The commands that make the table, add a volume and remove one.
ghost use Rattle.std.specs.Prelude.{◌≡◌, ◌+◌, ◌*◌, ◌<◌, ◌≤◌, ◌++◌, ℕ, None, length, replicate};
ghost use Rattle.stair_array.specs.Promise.{Opened};
ghost use Rattle.stair_model.specs.Geometry.{block_count, data_cells};
ghost use Rattle.stair_model.specs.Stripe.{SECTOR as BYTES};
ghost use Rattle.stair_conf.specs.declared.job.VolumeJob.TheVariants as volume;
ghost use Rattle.stair_command.specs.Comes.{ExecutesOnDevices};
ghost use Rattle.stair_command.specs.Devices.{device_view, devices};
ghost use Rattle.stair_command.specs.Program.{Program};
ghost use Rattle.stair_command.specs.Rack.{rack_view};
ghost use Rattle.stair_watch.specs.WatcherList.{AllStay};
ghost use Rattle.stair_volume.specs.Changes.{with_volume, without_volume};
ghost use Rattle.stair_volume.specs.Commands.{clears, dropped_line as line_of_dropped, made_line as line_of_made, makes, on_table, ready_line as line_of_ready, removes, sets_table, volume_line};
ghost use Rattle.stair_volume.specs.Parts.{after_line, after_steps};

use crate::extent::Extent;
use crate::fault::VolumeFault;
use crate::table::Table;
use crate::table_fault::TableFault;
use crate::writing::write_table;
use stair_array::ArrayFault;
use stair_base::{SECTOR, StripeCode};
use stair_command::{ObservedArray, piece_blocks};
use stair_conf::Name;
use stair_rack::{Rack, Watcher};
use stair_watch::Line;

/// Makes block 0 a table without volumes. Returns the line that reports it.
pub(crate) fn make_ready<C: StripeCode, R: Rack>(
    array: &mut ObservedArray<C>,
    rack: &mut R,
    watchers: &mut Vec<Box<dyn Watcher>>,
) -> Result<Line, VolumeFault>
    requires stay { AllStay hears watchers.old.items }
    ensures comes { ExecutesOnDevices
        (device_view (rack_view R.Rack) hears)
        (on_table array.old.member.array.geometry volume.Ready None)
        (after_line array.old.member.array.geometry.n result)
        (devices rack.old (Opened array.old) watchers.old.items)
        (devices rack.new (Opened array.new) watchers.new.items) }
    ensures stay { AllStay hears watchers.new.items }
{
    let empty = Table::empty(array.geometry().blocks());
    set_table(&empty, array, rack, watchers)?;
    Ok(ready_line())
}

/// Adds a volume of `blocks` blocks of zeros. Returns the line that reports it.
pub(crate) fn make<C: StripeCode, R: Rack>(
    table: &Table,
    name: Name,
    blocks: u64,
    zeros: &[u8],
    array: &mut ObservedArray<C>,
    rack: &mut R,
    watchers: &mut Vec<Box<dyn Watcher>>,
) -> Result<Line, VolumeFault>
    requires of { table.now.blocks ≡ block_count array.old.member.array.geometry }
    requires some { 1 ≤ blocks }
    requires zeros { zeros.now ≡ replicate (BYTES * data_cells array.old.member.array.geometry) 0 }
    requires stay { AllStay hears watchers.old.items }
    ensures comes { ExecutesOnDevices
        (device_view (rack_view R.Rack) hears)
        (makes array.old.member.array.geometry name (with_volume table.now name blocks))
        (after_line array.old.member.array.geometry.n result)
        (devices rack.old (Opened array.old) watchers.old.items)
        (devices rack.new (Opened array.new) watchers.new.items) }
    ensures stay { AllStay hears watchers.new.items }
{
    let grown = table.with(name, blocks)?;
    // brings the invariant of the table into scope: its volumes are within the array
    let _ = grown.entries();
    let extent = grown.find(name).ok_or(TableFault::NoVolume)?;
    clear(extent, zeros, array, rack, watchers)?;
    set_table(&grown, array, rack, watchers)?;
    Ok(made_line(&name, extent))
}

/// Removes a volume. Returns the line that reports it.
pub(crate) fn remove<C: StripeCode, R: Rack>(
    table: &Table,
    name: Name,
    array: &mut ObservedArray<C>,
    rack: &mut R,
    watchers: &mut Vec<Box<dyn Watcher>>,
) -> Result<Line, VolumeFault>
    requires stay { AllStay hears watchers.old.items }
    ensures comes { ExecutesOnDevices
        (device_view (rack_view R.Rack) hears)
        (removes array.old.member.array.geometry name (without_volume table.now name))
        (after_line array.old.member.array.geometry.n result)
        (devices rack.old (Opened array.old) watchers.old.items)
        (devices rack.new (Opened array.new) watchers.new.items) }
    ensures stay { AllStay hears watchers.new.items }
{
    let shrunk = table.without(name)?;
    set_table(&shrunk, array, rack, watchers)?;
    Ok(dropped_line(&name))
}

// Writes zeros to the blocks. Each step writes the blocks of one stripe.
fn clear<C: StripeCode, R: Rack>(
    extent: Extent,
    zeros: &[u8],
    array: &mut ObservedArray<C>,
    rack: &mut R,
    watchers: &mut Vec<Box<dyn Watcher>>,
) -> Result<(), ArrayFault>
    requires within { extent.first + extent.blocks ≤ block_count array.old.member.array.geometry }
    requires zeros { zeros.now ≡ replicate (BYTES * data_cells array.old.member.array.geometry) 0 }
    requires stay { AllStay hears watchers.old.items }
    ensures comes { (rest : Program) → ExecutesOnDevices
        (device_view (rack_view R.Rack) hears)
        (clears array.old.member.array.geometry extent.blocks extent.first extent.blocks rest)
        (after_steps array.old.member.array.geometry.n result rest)
        (devices rack.old (Opened array.old) watchers.old.items)
        (devices rack.new (Opened array.new) watchers.new.items) }
    ensures geometry { array.new.member.array.geometry ≡ array.old.member.array.geometry }
    ensures stay { AllStay hears watchers.new.items }
{
    let geometry = array.geometry();
    // brings the limits of the geometry into scope: the number of a block fits
    let _ = geometry.blocks();
    let mut block = extent.first;
    let end = block + extent.blocks;
    while block < end {
        let piece = piece_blocks(&geometry, block, end - block);
        array.write_blocks(rack, block, &zeros[..SECTOR * usize::from(piece)], watchers)?;
        block += u64::from(piece);
    }
    Ok(())
}

// Writes the table.
fn set_table<C: StripeCode, R: Rack>(
    table: &Table,
    array: &mut ObservedArray<C>,
    rack: &mut R,
    watchers: &mut Vec<Box<dyn Watcher>>,
) -> Result<(), ArrayFault>
    requires stay { AllStay hears watchers.old.items }
    ensures comes { (rest : Program) → ExecutesOnDevices
        (device_view (rack_view R.Rack) hears)
        (sets_table array.old.member.array.geometry table.now rest)
        (after_steps array.old.member.array.geometry.n result rest)
        (devices rack.old (Opened array.old) watchers.old.items)
        (devices rack.new (Opened array.new) watchers.new.items) }
    ensures geometry { array.new.member.array.geometry ≡ array.old.member.array.geometry }
    ensures stay { AllStay hears watchers.new.items }
{
    // brings the invariant of the geometry into scope: a single block is of one stripe
    let _ = array.geometry();
    array.write_blocks(rack, 0, &write_table(table), watchers)
}

fn ready_line() -> Line
    ensures { result ≡ line_of_ready }
{
    let mut line = Line::new();
    line.push(b"volumes ready\n");
    line
}

fn made_line(name: &Name, extent: Extent) -> Line
    ensures { result ≡ line_of_made name.now extent }
{
    let mut line = Line::new();
    line.push(b"made ");
    push_volume(&mut line, name, extent);
    line
}

fn dropped_line(name: &Name) -> Line
    ensures { result ≡ line_of_dropped name.now }
{
    let mut line = Line::new();
    line.push(b"dropped ");
    line.push(name.bytes());
    line.push(b"\n");
    line
}

/// Appends a volume's name, its first block and its number of blocks.
pub(crate) fn push_volume(line: &mut Line, name: &Name, extent: Extent)
    requires { length line.old ≤ 100 }
    ensures { line.new ≡ line.old ++ volume_line name.now extent }
{
    line.push(name.bytes());
    line.push_named(b" first ", extent.first);
    line.push_named(b" blocks ", extent.blocks);
    line.push(b"\n");
}
