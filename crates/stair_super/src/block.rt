ghost use Rattle.std.specs.Prelude.{◌≡◌};
ghost use Rattle.stair_super.specs.Superblock.{superblock_of, IsWellFormed, IsSuperblock};

use crate::configuration::Configuration;
use crate::label::Label;
use crate::mark::Mark;
use stair_base::Geometry;
use std::marker::Model;

/// A well-formed superblock.
///
/// Its geometry keeps its limits and its slot is below n. Its epoch is at least 1 and at most its draw. A slot that is
/// Live or Rebuilding has a joined number from 1 to the epoch, and one that is Down has 0. Slots at or above n are
/// Down. Its own slot isn't Down, and has the joined number of the superblock.
#[derive(Clone, Copy, Debug, PartialEq, Eq)]
pub struct Super {
    array: Configuration,
    slot: u8,
    joined: u64,
    draw: u64,
}

impl Model for Super {
    ghost use Rattle.stair_super.specs.Superblock.{Superblock as Said};

    ghost Value = { Said };

    ghost use Rattle.stair_super.specs.Stored.{shown, kept, IsStored};

    ghost view = { shown };

    ghost invariant = { IsStored };

    ghost inverse = { kept };
}

impl Super {
    /// The superblock with these fields: what its epoch names, the slot of the device, the epoch in which the device
    /// was admitted to it, and the draw.
    pub fn new(array: Configuration, slot: u8, joined: u64, draw: u64) -> Super
        requires { IsWellFormed (superblock_of array slot joined draw) }
        ensures { result ≡ superblock_of array slot joined draw }
    {
        // an identity has sixteen bytes, and a label at most 64
        let _id = array.geometry.id();
        let _text = array.label.bytes();
        Super {
            array,
            slot,
            joined,
            draw,
        }
    }

    /// What the epoch names.
    pub fn array(&self) -> &Configuration
        ensures value { result.now ≡ self.now.array }
        ensures rules { IsSuperblock self.now }
    {
        &self.array
    }

    /// The geometry of the array.
    pub fn geometry(&self) -> Geometry
        ensures value { result ≡ self.now.array.geometry }
        ensures rules { IsSuperblock self.now }
    {
        self.array.geometry
    }

    /// The slot of the device: below n.
    pub fn slot(&self) -> u8
        ensures value { result ≡ self.now.slot }
        ensures rules { IsSuperblock self.now }
    {
        self.slot
    }

    /// The epoch in which the device was admitted to its slot: 1 to the epoch.
    pub fn joined(&self) -> u64
        ensures value { result ≡ self.now.joined }
        ensures rules { IsSuperblock self.now }
    {
        self.joined
    }

    /// The number that was drawn for the superblock: at least its epoch.
    pub fn draw(&self) -> u64
        ensures value { result ≡ self.now.draw }
        ensures rules { IsSuperblock self.now }
    {
        self.draw
    }

    /// The epoch: at least 1.
    pub fn epoch(&self) -> u64
        ensures value { result ≡ self.now.array.epoch }
        ensures rules { IsSuperblock self.now }
    {
        self.array.epoch
    }

    /// The mark of each slot; those at or above n are Down.
    pub fn marks(&self) -> [Mark; 32]
        ensures value { result ≡ self.now.array.marks }
        ensures rules { IsSuperblock self.now }
    {
        self.array.marks
    }

    /// The joined number of each slot; those of slots that are Down are 0.
    pub fn joins(&self) -> [u64; 32]
        ensures value { result ≡ self.now.array.joins }
        ensures rules { IsSuperblock self.now }
    {
        self.array.joins
    }

    /// Whether the array is frozen.
    pub fn frozen(&self) -> bool
        ensures value { result ≡ self.now.array.frozen }
        ensures rules { IsSuperblock self.now }
    {
        self.array.frozen
    }

    /// The label of the array.
    pub fn label(&self) -> Label
        ensures value { result ≡ self.now.array.label }
        ensures rules { IsSuperblock self.now }
    {
        self.array.label
    }
}
