// What the superblock places of a slot hold.
ghost use Rattle.std.specs.Prelude.{◌≡◌, ◌<◌, ◌↔◌, IsTrue};
ghost use Rattle.stair_rack.specs.RackCounts.{NoneFalls, RisesAtMost};
ghost use Rattle.stair_rack.specs.Told.{told};
ghost use Rattle.stair_member.specs.Probing.{HoldsNone, ProbesPlace, ProbesSlot, WasGone, block_in};

use stair_base::{FIRST_PLACE, SECOND_PLACE, SECTOR};
use stair_rack::{Got, Rack};
use stair_super::{Super, read_super};

/// What a superblock place was found to hold.
#[derive(Clone, Copy, Drop)]
pub enum PlaceProbe {
    /// This superblock, of whatever array and slot.
    Block(Super),
    /// No superblock, or the place can't be read.
    Nothing,
    /// The slot was gone to the read.
    Gone,
}

/// What the two superblock places of a slot were found to hold.
#[derive(Clone, Copy, Drop)]
pub struct SlotProbe {
    /// The first place.
    pub first: PlaceProbe,
    /// The second place.
    pub second: PlaceProbe,
}

impl PlaceProbe {
    /// Returns the superblock that was found, if there is one.
    pub fn block(self) -> Option<Super>
        ensures { result ≡ block_in self }
    {
        match self {
            PlaceProbe::Block(block) => Some(block),
            PlaceProbe::Nothing | PlaceProbe::Gone => None,
        }
    }

    // Whether the slot was gone to the read.
    pub(crate) fn is_gone(self) -> bool
        ensures { IsTrue result ↔ (self ≡ PlaceProbe.Gone) }
    {
        matches!(self, PlaceProbe::Gone)
    }
}

impl SlotProbe {
    /// Returns whether the slot was gone to one of the reads.
    pub fn is_gone(&self) -> bool
        ensures { IsTrue result ↔ WasGone self.now }
    {
        self.first.is_gone() || self.second.is_gone()
    }

    /// Returns whether both places were read and hold no superblock.
    pub fn is_bare(&self) -> bool
        ensures { IsTrue result ↔ HoldsNone self.now }
    {
        matches!(self.first, PlaceProbe::Nothing) && matches!(self.second, PlaceProbe::Nothing)
    }
}

/// Reads the two superblock places of a slot, the first one first, each once. Attach the slot before.
///
/// A slot that is gone to the first read is read a second time. Nothing is written, and no memory is taken.
pub fn probe_slot<R: Rack>(rack: &mut R, slot: u8) -> SlotProbe
    requires { slot < 32 }
    ensures does { ProbesSlot slot result (told R.Rack rack.old) (told R.Rack rack.new) }
    ensures counts { NoneFalls (R.bads rack.old) (R.bads rack.new) (R.gones rack.old)
        (R.gones rack.new) }
    ensures reads { RisesAtMost 2 (R.reads rack.old) (R.reads rack.new) }
{
    let first = read_place(rack, slot, FIRST_PLACE);
    let second = read_place(rack, slot, SECOND_PLACE);
    SlotProbe { first, second }
}

fn read_place<R: Rack>(rack: &mut R, slot: u8, place: u32) -> PlaceProbe
    requires { slot < 32 }
    ensures does { ProbesPlace slot place result (told R.Rack rack.old) (told R.Rack rack.new) }
    ensures counts { NoneFalls (R.bads rack.old) (R.bads rack.new) (R.gones rack.old)
        (R.gones rack.new) }
    ensures reads { RisesAtMost 1 (R.reads rack.old) (R.reads rack.new) }
{
    let mut bytes = [0; SECTOR];
    match rack.read(slot, place, &mut bytes) {
        Got::Good => match read_super(&bytes) {
            Some(block) => PlaceProbe::Block(block),
            None => PlaceProbe::Nothing,
        },
        Got::Bad => PlaceProbe::Nothing,
        Got::Gone => PlaceProbe::Gone,
    }
}
