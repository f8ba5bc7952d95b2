// What an epoch that begins names, by its parts.
ghost use Rattle.std.specs.Prelude.{◌≡◌, ◌≢◌, ◌<◌, ◌≤◌, ◌⊎◌, ℕ, Some, length, slice_index, slice_index_or};
ghost use Rattle.stair_super.specs.Label.{IsLabel};
ghost use Rattle.stair_super.specs.declared.mark.Mark.TheVariants as mark;
ghost use Rattle.stair_member.specs.ChangesSteps.{Names, joined_then};
ghost use Rattle.stair_member.specs.Aims.{aimed, frozen_then, label_then, mark_for};
ghost use Rattle.stair_member.specs.declared.aim.EpochChange.TheVariants as admit;
ghost use Rattle.stair_member.specs.declared.why.Why.TheVariants as why;

use crate::aim::EpochChange;
use crate::why::Why;
use stair_super::{Configuration, Label, Mark};

// The reason of each slot.
pub(crate) fn aimed_whys(whys: &[Why; 32], aim: &EpochChange) -> [Why; 32]
    requires { (j : ℕ) → (aim.now ≡ admit.Admit j) ⊎ (aim.now ≡ admit.Promote j) → j < 32 }
    ensures each { (j : ℕ) → j < 32 → slice_index_or result j why.Here
        ≡ aimed aim.now j (slice_index_or whys.now j why.Here) }
    ensures size { length result ≡ 32 }
{
    let mut aimed = *whys;
    match aim {
        EpochChange::Admit(slot) => aimed[usize::from(*slot)] = Why::Rebuilding,
        EpochChange::Promote(slot) => aimed[usize::from(*slot)] = Why::Here,
        EpochChange::Fence | EpochChange::Stamp(_, _) => {}
    }
    aimed
}

fn mark_of(why: Why) -> Mark
    ensures { result ≡ mark_for why }
{
    match why {
        Why::Here => Mark::Live,
        Why::Rebuilding => Mark::Rebuilding,
        Why::Gone
        | Why::NoSuper
        | Why::OtherArray
        | Why::OtherSlot
        | Why::MarkedDown
        | Why::OtherJoined => Mark::Down,
    }
}

// The mark of each slot of so many.
pub(crate) fn marks_of(whys: &[Why; 32], n: u8) -> [Mark; 32]
    requires { n ≤ 32 }
    ensures each { (j : ℕ) → j < n → slice_index_or result j mark.Down
        ≡ mark_for (slice_index_or whys.now j why.Here) }
    ensures absent { (j : ℕ) → n ≤ j → slice_index_or result j mark.Down ≡ mark.Down }
    ensures size { length result ≡ 32 }
{
    let mut marks = [Mark::Down; 32];
    for slot in 0..n {
        marks[usize::from(slot)] = mark_of(whys[usize::from(slot)]);
    }
    marks
}

// The joined number of a slot that had this one.
fn joined_of(mark: Mark, joined: u64, slot: u8, aim: &EpochChange, epoch: u64) -> u64
    ensures { result ≡ joined_then aim.now epoch slot mark joined }
{
    if mark == Mark::Down {
        return 0;
    }
    match aim {
        EpochChange::Admit(admitted) => { if slot == *admitted { epoch } else { joined } }
        EpochChange::Fence | EpochChange::Promote(_) | EpochChange::Stamp(_, _) => joined,
    }
}

// The joined number of each slot.
pub(crate) fn joins_of(
    marks: &[Mark; 32],
    joins: &[u64; 32],
    aim: &EpochChange,
    epoch: u64,
) -> [u64; 32]
    ensures each { (j : ℕ) → j < 32 → slice_index result j
        ≡ joined_then aim.now epoch j (slice_index_or marks.now j mark.Down) (slice_index joins.now j) }
    ensures size { length result ≡ 32 }
{
    let mut joined = [0; 32];
    for slot in 0..32u8 {
        let at = usize::from(slot);
        joined[at] = joined_of(marks[at], joins[at], slot, aim, epoch);
    }
    joined
}

// Whether the array is frozen then.
pub(crate) fn frozen_of(array: &Configuration, aim: &EpochChange) -> bool
    ensures { result ≡ frozen_then aim.now array.now }
{
    match aim {
        EpochChange::Stamp(frozen, _) => *frozen,
        EpochChange::Fence | EpochChange::Admit(_) | EpochChange::Promote(_) => array.frozen,
    }
}

// Its label then.
pub(crate) fn label_of(array: &Configuration, aim: &EpochChange) -> Label
    ensures value { result ≡ label_then aim.now array.now }
    ensures rules { IsLabel result }
{
    let label = match aim {
        EpochChange::Stamp(_, label) => *label,
        EpochChange::Fence | EpochChange::Admit(_) | EpochChange::Promote(_) => array.label,
    };
    // a label keeps its rules
    let _text = label.bytes();
    label
}

// What the epoch names.
pub(crate) fn begun_array(
    array: &Configuration,
    whys: &[Why; 32],
    aim: &EpochChange,
    epoch: u64,
) -> Configuration
    requires { array.now.geometry.n ≤ 32 }
    ensures names { Names aim.now array.now whys.now epoch result }
    ensures label { IsLabel result.label }
{
    let marks = marks_of(whys, array.geometry.n());
    let joins = joins_of(&marks, &array.joins, aim, epoch);
    Configuration {
        geometry: array.geometry,
        epoch,
        marks,
        joins,
        frozen: frozen_of(array, aim),
        label: label_of(array, aim),
    }
}
