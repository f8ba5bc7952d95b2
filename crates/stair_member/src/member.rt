ghost use Rattle.std.specs.Prelude.{◌≡◌, ◌<◌, ◌↔◌, ℕ};
ghost use Rattle.stair_model.specs.Slots.{HasSlot, IsSlotSet};
ghost use Rattle.stair_member.specs.Membership.{IsHere, IsMembership, member_of, place_of, why_of};

use crate::why::Why;
use stair_base::{Geometry, Slots};
use stair_super::{Configuration, Label, Mark};
use std::marker::Model;

/// What a session knows of an array and of its slots.
///
/// A slot whose reason is `Here` is marked Live, and one whose reason is `Rebuilding` is marked so. Slots at or above n have
/// the reason `Here` and are Down.
#[derive(Clone, Copy, Debug, PartialEq, Eq)]
pub struct Member {
    pub(crate) array: Configuration,
    pub(crate) drawn: u64,
    pub(crate) whys: [Why; 32],
    pub(crate) places: [u32; 32],
}

impl Model for Member {
    ghost use Rattle.stair_member.specs.Membership.{Membership};

    ghost Value = { Membership };

    ghost use Rattle.stair_member.specs.StoredMember.{shown, kept, IsStored};

    ghost view = { shown };

    ghost invariant = { IsStored };

    ghost inverse = { kept };
}

impl Member {
    pub(crate) fn new(
        array: Configuration,
        drawn: u64,
        whys: [Why; 32],
        places: [u32; 32],
    ) -> Member
        requires { IsMembership (member_of array drawn whys places) }
        ensures { result ≡ member_of array drawn whys places }
    {
        Member {
            array,
            drawn,
            whys,
            places,
        }
    }

    /// What the array's epoch names.
    pub fn array(&self) -> &Configuration
        ensures value { result.now ≡ self.now.array }
        ensures rules { IsMembership self.now }
    {
        &self.array
    }

    /// The geometry of the array.
    pub fn geometry(&self) -> Geometry
        ensures value { result ≡ self.now.array.geometry }
        ensures rules { IsMembership self.now }
    {
        self.array.geometry
    }

    /// The epoch: at least 1.
    pub fn epoch(&self) -> u64
        ensures value { result ≡ self.now.array.epoch }
        ensures rules { IsMembership self.now }
    {
        self.array.epoch
    }

    /// The greatest draw that was seen: at least the epoch.
    pub fn drawn(&self) -> u64
        ensures value { result ≡ self.now.drawn }
        ensures rules { IsMembership self.now }
    {
        self.drawn
    }

    /// The mark of each slot.
    pub fn marks(&self) -> [Mark; 32]
        ensures value { result ≡ self.now.array.marks }
        ensures rules { IsMembership self.now }
    {
        self.array.marks
    }

    /// The joined number of each slot: the epoch in which its device was admitted. Those of slots that are Down are 0.
    pub fn joins(&self) -> [u64; 32]
        ensures value { result ≡ self.now.array.joins }
        ensures rules { IsMembership self.now }
    {
        self.array.joins
    }

    /// Whether the array is frozen.
    pub fn frozen(&self) -> bool
        ensures value { result ≡ self.now.array.frozen }
        ensures rules { IsMembership self.now }
    {
        self.array.frozen
    }

    /// The label of the array.
    pub fn label(&self) -> Label
        ensures value { result ≡ self.now.array.label }
        ensures rules { IsMembership self.now }
    {
        self.array.label
    }

    /// The slots that take part: those below n whose reason is `Here` or `Rebuilding`.
    pub fn here(&self) -> Slots
        ensures members { (j : ℕ) → HasSlot result j ↔ IsHere self.now j }
        ensures well_formed { IsSlotSet result }
        ensures rules { IsMembership self.now }
    {
        let mut here = Slots::empty();
        for slot in 0..self.array.geometry.n() {
            if matches!(self.why(slot), Why::Here | Why::Rebuilding) {
                here.add(slot);
            }
        }
        here
    }

    /// Why the slot, a number below 32, isn't here, or that it is.
    pub fn why(&self, slot: u8) -> Why
        requires { slot < 32 }
        ensures value { result ≡ why_of self.now slot }
        ensures rules { IsMembership self.now }
    {
        self.whys[usize::from(slot)]
    }

    /// The place, `FIRST_PLACE` or `SECOND_PLACE`, that the next superblock of the slot, a number below 32, is written to: the
    /// one that doesn't hold its newest.
    pub fn next_place(&self, slot: u8) -> u32
        requires { slot < 32 }
        ensures value { result ≡ place_of self.now slot }
        ensures rules { IsMembership self.now }
    {
        self.places[usize::from(slot)]
    }
}
