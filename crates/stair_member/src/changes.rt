// How a member changes while an epoch is established.
ghost use Rattle.std.specs.Prelude.{◌≡◌, ◌≢◌, ◌+◌, ◌-◌, ◌^◌, ◌<◌, ◌↔◌, ℕ};
ghost use Rattle.stair_model.specs.Slots.{HasSlot, IsSlotSet};
ghost use Rattle.stair_super.specs.Superblock.{IsSuperblock, mark_in};
ghost use Rattle.stair_super.specs.declared.mark.Mark.TheVariants as mark;
ghost use Rattle.stair_member.specs.ChangesSteps.{
  Begins,
  IsLiveSlot,
  MayBegin,
  issue,
  turned,
  with_draw,
  without,
};
ghost use Rattle.stair_member.specs.Establishing.{AreFallen, Leaves};
ghost use Rattle.stair_member.specs.Membership.{IsMembership, IsMissing};

use crate::aim::EpochChange;
use crate::begin::{aimed_whys, begun_array};
use crate::member::Member;
use crate::why::Why;
use stair_base::Slots;
use stair_super::{Mark, Super};

impl Member {
    // The slots that are live.
    pub(crate) fn live(&self) -> Slots
        ensures members { (j : ℕ) → HasSlot result j ↔ IsLiveSlot self.now j }
        ensures well_formed { IsSlotSet result }
        ensures rules { IsMembership self.now }
    {
        let mut live = Slots::empty();
        for slot in 0..self.array.geometry.n() {
            if self.why(slot) == Why::Here {
                live.add(slot);
            }
        }
        live
    }

    // The slots below n that aren't live.
    pub(crate) fn missing(&self) -> Slots
        ensures members { (j : ℕ) → HasSlot result j ↔ IsMissing self.now j }
        ensures well_formed { IsSlotSet result }
        ensures rules { IsMembership self.now }
    {
        let mut missing = Slots::empty();
        for slot in 0..self.array.geometry.n() {
            if self.why(slot) != Why::Here {
                missing.add(slot);
            }
        }
        missing
    }

    // The superblock that the slot is given now.
    pub(crate) fn block(&self, slot: u8) -> Super
        requires below { slot < self.now.array.geometry.n }
        requires up { mark_in self.now.array slot ≢ mark.Down }
        ensures value { result ≡ issue self.now slot }
        ensures formed { IsSuperblock result }
    {
        let block = Super::new(
            self.array,
            slot,
            self.array.joins[usize::from(slot)],
            self.drawn,
        );
        let _draw = block.draw();
        block
    }

    // A draw is seen.
    pub(crate) fn draw(&mut self)
        requires { self.old.drawn < 2 ^ 64 - 1 }
        ensures is { self.new ≡ with_draw self.old }
        ensures rules { IsMembership self.new }
    {
        self.drawn += 1;
    }

    // The slot was gone.
    pub(crate) fn mark_gone(&mut self, slot: u8)
        requires { slot < self.old.array.geometry.n }
        ensures is { self.new ≡ without self.old slot }
        ensures rules { IsMembership self.new }
    {
        self.whys[usize::from(slot)] = Why::Gone;
    }

    // These slots are dropped.
    pub(crate) fn mark_all_gone(&mut self, leaving: Slots)
        requires { (j : ℕ) → HasSlot leaving j → j < self.old.array.geometry.n }
        ensures is { Leaves leaving self.old self.new }
        ensures rules { IsMembership self.new }
    {
        for slot in 0..self.array.geometry.n() {
            if leaving.has(slot) {
                self.mark_gone(slot);
            }
        }
    }

    // The slot's next superblock goes to its other place.
    pub(crate) fn flip_place(&mut self, slot: u8)
        requires { slot < 32 }
        ensures is { self.new ≡ turned self.old slot }
        ensures rules { IsMembership self.new }
    {
        let place = self.places[usize::from(slot)];
        self.places[usize::from(slot)] = 1 - place;
    }

    // The epoch of the last draw begins.
    pub(crate) fn begin(&mut self, aim: &EpochChange)
        requires { MayBegin aim.now self.old }
        ensures begun { Begins aim.now self.old self.new }
        ensures rules { IsMembership self.new }
    {
        let whys = aimed_whys(&self.whys, aim);
        let array = begun_array(&self.array, &whys, aim, self.drawn);
        *self = Member::new(array, self.drawn, whys, self.places);
    }

    // The slots that became Down since then.
    pub(crate) fn fallen_since(&self, before: &Member) -> Slots
        ensures { AreFallen before.now self.now result }
    {
        let mut fallen = Slots::empty();
        for slot in 0..before.array.geometry.n() {
            let at = usize::from(slot);
            if self.array.marks[at] == Mark::Down && before.array.marks[at] != Mark::Down {
                fallen.add(slot);
            }
        }
        fallen
    }
}
