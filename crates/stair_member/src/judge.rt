// Which array stands by the superblocks that were found, and what they say of it.
ghost use Rattle.std.specs.Prelude.{◌≡◌, ◌≢◌, ◌<◌, ◌≤◌, ◌↔◌, ℕ, IsTrue, Some, length, slice_index_or};
ghost use Rattle.stair_model.specs.Slots.{HasSlot, IsSlotSet};
ghost use Rattle.stair_rack.specs.Media.{Image};
ghost use Rattle.stair_super.specs.Superblock.{IsSuperblock};
ghost use Rattle.stair_member.specs.Reasons.{IsReason};
ghost use Rattle.stair_member.specs.JudgeSteps.{
  IsCounting,
  IsCountingFor,
  IsCurrentOf,
  IsFirst,
  IsReasonByMark,
  Shows,
  StandsAt,
  later_super,
};
ghost use Rattle.stair_member.specs.Superblocks.{CountsFor, Identifies};
ghost use Rattle.stair_member.specs.Survey.{IsGreatestDraw};

use crate::why::Why;
use stair_base::{Geometry, Slots};
use stair_super::{Mark, Super};

/// The superblock of each slot's medium, where it has one.
pub(crate) type Found = [Option<Super>; 32];

// The superblock that the slot's medium has, where it names this slot.
fn counting(found: &Found, slot: u8) -> Option<Super>
    requires { slot < 32 }
    ensures { (image : Image) → Shows found.now image → IsCounting image slot result }
{
    let block = found[usize::from(slot)]?;
    if block.slot() == slot {
        Some(block)
    } else {
        None
    }
}

// The superblock by which the slot counts for the array.
fn counting_for(found: &Found, geometry: &Geometry, slot: u8) -> Option<Super>
    requires { slot < 32 }
    ensures { (image : Image) → Shows found.now image →
        IsCountingFor geometry.now image slot result }
{
    let block = counting(found, slot)?;
    if block.geometry().is_same(geometry) {
        Some(block)
    } else {
        None
    }
}

// The slots that count for the array.
fn slots_of(found: &Found, geometry: &Geometry) -> Slots
    ensures members { (image : Image) → Shows found.now image → (j : ℕ) →
        HasSlot result j ↔ CountsFor geometry.now image j }
    ensures formed { IsSlotSet result }
{
    let mut slots = Slots::empty();
    for slot in 0..32u8 {
        if counting_for(found, geometry, slot).is_some() {
            slots.add(slot);
        }
    }
    slots
}

fn stands(found: &Found, geometry: &Geometry) -> bool
    ensures { (image : Image) → Shows found.now image →
        IsTrue result ↔ Identifies geometry.now image }
{
    slots_of(found, geometry).count() > geometry.m()
}

/// The array with the lowest slot of those that stand and aren't this one.
pub(crate) fn first_standing(found: &Found, but: Option<Geometry>) -> Option<Geometry>
    ensures { (image : Image) → Shows found.now image → IsFirst but image result }
{
    for slot in 0..32u8 {
        let standing = standing_at(found, &but, slot);
        if standing.is_some() {
            return standing;
        }
    }
    None
}

// The array that stands and isn't this one, for which the slot counts.
fn standing_at(found: &Found, but: &Option<Geometry>, slot: u8) -> Option<Geometry>
    requires { slot < 32 }
    ensures { (image : Image) → Shows found.now image → StandsAt but.now image slot result }
{
    let geometry = counting(found, slot)?.geometry();
    if !is_this(but, &geometry) && stands(found, &geometry) {
        Some(geometry)
    } else {
        None
    }
}

fn is_this(but: &Option<Geometry>, geometry: &Geometry) -> bool
    ensures { IsTrue result ↔ (but.now ≡ Some geometry.now) }
{
    match but {
        Some(other) => other.is_same(geometry),
        None => false,
    }
}

/// Of the superblocks that count for the array the one of the greatest epoch, and the lowest slot's at a tie.
pub(crate) fn current_of(found: &Found, geometry: &Geometry) -> Option<Super>
    ensures { (image : Image) → Shows found.now image → IsCurrentOf geometry.now image result }
{
    let mut current: Option<Super> = None;
    for slot in 0..32u8 {
        if let Some(block) = counting_for(found, geometry, slot) {
            current = later_of(current, block);
        }
    }
    current
}

fn later_of(current: Option<Super>, block: Super) -> Option<Super>
    ensures { result ≡ later_super current block }
{
    match current {
        Some(current) => {
            if block.epoch() <= current.epoch() {
                Some(current)
            } else {
                Some(block)
            }
        }
        None => Some(block),
    }
}

/// The greatest draw of the superblocks that count for the array, which stands.
pub(crate) fn greatest_draw(found: &Found, geometry: &Geometry) -> u64
    ensures { (image : Image) → Shows found.now image → Identifies geometry.now image →
        IsGreatestDraw geometry.now image result }
{
    let mut drawn = 0;
    for slot in 0..32u8 {
        if let Some(block) = counting_for(found, geometry, slot) {
            drawn = drawn.max(block.draw());
        }
    }
    drawn
}

// Why the slot isn't here, or that it is: the first reason that applies.
fn reason_of(found: &Found, gone: Slots, current: &Super, slot: u8) -> Why
    requires { slot < 32 }
    ensures { (image : Image) → Shows found.now image →
        IsReason (HasSlot gone) current.now.array.geometry image current.now slot result }
{
    if gone.has(slot) {
        return Why::Gone;
    }
    let Some(block) = found[usize::from(slot)] else {
        return Why::NoSuper;
    };
    if !block.geometry().is_same(&current.geometry()) {
        return Why::OtherArray;
    }
    if block.slot() != slot {
        return Why::OtherSlot;
    }
    reason_by_mark(&block, current, slot)
}

// The same, of a slot that counts for the array.
fn reason_by_mark(block: &Super, current: &Super, slot: u8) -> Why
    requires { slot < 32 }
    ensures { IsReasonByMark block.now current.now slot result }
{
    let mark = current.marks()[usize::from(slot)];
    if mark == Mark::Down {
        return Why::MarkedDown;
    }
    if block.joined() != current.joins()[usize::from(slot)] {
        return Why::OtherJoined;
    }
    if mark == Mark::Rebuilding {
        return Why::Rebuilding;
    }
    Why::Here
}

/// The reason of each slot of the array; one that the array hasn't has `Here`.
pub(crate) fn reasons_of(found: &Found, gone: Slots, current: &Super) -> [Why; 32]
    ensures each { (image : Image) → Shows found.now image → (j : ℕ) →
        j < current.now.array.geometry.n → IsReason (HasSlot gone) current.now.array.geometry
        image current.now j (slice_index_or result j Why.Here) }
    ensures absent { (j : ℕ) → current.now.array.geometry.n ≤ j →
        slice_index_or result j Why.Here ≡ Why.Here }
    ensures size { length result ≡ 32 }
    ensures rules { IsSuperblock current.now }
{
    let mut whys = [Why::Here; 32];
    for slot in 0..current.geometry().n() {
        whys[usize::from(slot)] = reason_of(found, gone, current, slot);
    }
    whys
}

/// The slots that aren't live.
pub(crate) fn missing(whys: &[Why; 32]) -> Slots
    ensures members { (j : ℕ) → HasSlot result j ↔ (slice_index_or whys.now j Why.Here ≢ Why.Here) }
    ensures formed { IsSlotSet result }
{
    let mut slots = Slots::empty();
    for slot in 0..32u8 {
        if whys[usize::from(slot)] != Why::Here {
            slots.add(slot);
        }
    }
    slots
}
