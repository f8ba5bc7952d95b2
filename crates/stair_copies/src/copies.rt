// Older copies among the devices of a rack.
ghost use Rattle.std.specs.Prelude.{◌≡◌, ◌<◌, ◌↔◌, ℕ, IsTrue, slice_index_or};
ghost use Rattle.stair_copies.specs.Copies.{AreLive, HoldsBoth, IsBehind, IsCopyDraw, IsMeant};
ghost use Rattle.stair_copies.specs.Found.{AreFound};
ghost use Rattle.stair_member.specs.JudgeSteps.{IsNewest};
ghost use Rattle.stair_rack.specs.Sector.{Cell};
ghost use Rattle.stair_rack.specs.Told.{told};

use stair_base::{FIRST_PLACE, SECOND_PLACE, SECTOR, Slots};
use stair_member::{Why, survey};
use stair_rack::{Got, Rack};
use stair_super::{Configuration, Mark, Super, newer_of, read_super};

/// The older copies among the devices of an array.
#[derive(Clone, Copy, Debug, Drop)]
pub struct Copies {
    /// The epoch of the array.
    pub epoch: u64,
    /// Of each slot whose device is an older copy, the draw of that device.
    pub draws: [Option<u64>; 32],
    /// Whether enough devices are live without them.
    pub can_go: bool,
}

/// Finds the older copies among the devices of the array that a survey finds, or `None` if it is refused. Nothing is written.
///
/// The superblock places are read again after the survey. So a command that establishes an epoch meanwhile makes no device an
/// older copy.
pub fn find_copies<R: Rack>(rack: &mut R) -> Option<Copies>
    ensures does { AreFound result (told R.Rack rack.old) (told R.Rack rack.new) }
{
    let member = match survey(rack) {
        Ok(member) => member,
        Err(_) => return None,
    };
    let geometry = member.geometry();
    let mut draws = [None; 32];
    let mut missing = Slots::empty();
    for slot in 0..geometry.n() {
        if member.why(slot) != Why::Here {
            missing.add(slot);
        } else if let Some(draw) = draw_of_copy(rack, member.array(), slot) {
            missing.add(slot);
            draws[usize::from(slot)] = Some(draw);
        }
    }
    Some(Copies {
        epoch: member.epoch(),
        draws,
        can_go: missing.count() <= geometry.m(),
    })
}

// The draw of a slot's device, if both its superblock places can be read and it is an older copy.
fn draw_of_copy<R: Rack>(rack: &mut R, array: &Configuration, slot: u8) -> Option<u64>
    requires { slot < 32 }
{
    let first = read_place(rack, slot, FIRST_PLACE)?;
    let second = read_place(rack, slot, SECOND_PLACE)?;
    copy_draw(array, slot, &first, &second)
}

fn read_place<R: Rack>(rack: &mut R, slot: u8, place: u32) -> Option<[u8; SECTOR]>
    requires { slot < 32 }
{
    let mut bytes = [0; SECTOR];
    match rack.read(slot, place, &mut bytes) {
        Got::Good => Some(bytes),
        Got::Bad | Got::Gone => None,
    }
}

// The draw of a device whose superblock places hold these bytes, if it is an older copy.
fn copy_draw(
    array: &Configuration,
    slot: u8,
    first: &[u8; SECTOR],
    second: &[u8; SECTOR],
) -> Option<u64>
    requires { slot < 32 }
    ensures { (cell : ℕ → Cell) → HoldsBoth cell first.now second.now →
        IsCopyDraw array.now slot cell result }
{
    match newest_of(first, second) {
        Some(block) => {
            if is_behind(array, slot, &block) {
                Some(block.draw())
            } else {
                None
            }
        }
        None => None,
    }
}

// The superblock of a device whose superblock places hold these bytes.
fn newest_of(first: &[u8; SECTOR], second: &[u8; SECTOR]) -> Option<Super>
    ensures { (cell : ℕ → Cell) → HoldsBoth cell first.now second.now → IsNewest cell result }
{
    newer_of(read_super(first), read_super(second))
}

// Whether the superblock of a slot's device shows that the device is an older copy.
fn is_behind(array: &Configuration, slot: u8, block: &Super) -> bool
    requires { slot < 32 }
    ensures { IsTrue result ↔ IsBehind array.now slot block.now }
{
    is_meant(array, slot, block) && are_live(array, slot, block) && block.draw() < array.epoch
}

// Whether a superblock is the array's for the slot, with its joined number.
fn is_meant(array: &Configuration, slot: u8, block: &Super) -> bool
    requires { slot < 32 }
    ensures { IsTrue result ↔ IsMeant array.now slot block.now }
{
    block.geometry().is_same(&array.geometry)
        && block.slot() == slot
        && block.joined() == array.joins[usize::from(slot)]
}

// Whether the slot is live in the array and in the superblock.
fn are_live(array: &Configuration, slot: u8, block: &Super) -> bool
    requires { slot < 32 }
    ensures { IsTrue result ↔ AreLive array.now slot block.now }
{
    is_live(&array.marks, slot) && is_live(&block.marks(), slot)
}

// Whether these marks have the slot as live.
fn is_live(marks: &[Mark; 32], slot: u8) -> bool
    requires { slot < 32 }
    ensures { IsTrue result ↔ (slice_index_or marks.now slot Mark.Down ≡ Mark.Live) }
{
    matches!(marks[usize::from(slot)], Mark::Live)
}
