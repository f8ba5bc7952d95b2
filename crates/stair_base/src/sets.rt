ghost use Rattle.std.specs.Prelude.{◌≡◌, ℕ, ◌+◌, ◌<◌, ◌⊎◌, ◌↔◌, IsTrue, if◌then◌else◌, slice_index};
ghost use Rattle.stair_model.specs.CellSet.{HasCell, cell_count, count_in_row, count_in_slot, IsCellSet};
ghost use Rattle.stair_model.specs.Coverage.{rest};
ghost use Rattle.stair_model.specs.Slots.{HasSlot, has_slot, slot_count, IsSlotSet};

use crate::geometry::Geometry;
use std::marker::Model;

/// A set of slots, each of which is a number below 32.
///
/// Two sets are equal exactly where they have the same slots.
#[derive(Clone, Copy, Debug, PartialEq, Eq)]
pub struct Slots {
    marks: [bool; 32],
}

impl Model for Slots {
    ghost use Rattle.stair_model.specs.Slots.{Slots as SlotSet, IsSlotSet};

    ghost Value = { SlotSet };

    ghost view = { λ s. record { marks = s.marks } };

    ghost invariant = { λ s. IsSlotSet (record { marks = s.marks }) };

    ghost inverse = { λ set. record { marks = set.marks } };
}

impl Slots {
    /// The set without slots.
    pub fn empty() -> Slots
        ensures none { (j : ℕ) → ¬ HasSlot result j }
        ensures well_formed { IsSlotSet result }
    {
        Slots { marks: [false; 32] }
    }

    /// Adds a slot, a number below 32; one that is in the set stays in it.
    pub fn add(&mut self, slot: u8)
        requires { slot < 32 }
        ensures members { (j : ℕ) → HasSlot self.new j ↔ (HasSlot self.old j ⊎ (j ≡ slot)) }
        ensures well_formed { IsSlotSet self.new }
    {
        self.marks[usize::from(slot)] = true;
    }

    /// Whether the slot, a number below 32, is in the set.
    pub fn has(&self, slot: u8) -> bool
        requires { slot < 32 }
        ensures member { IsTrue result ↔ HasSlot self.now slot }
        ensures well_formed { IsSlotSet self.now }
    {
        self.marks[usize::from(slot)]
    }

    /// The slots that are in this set or in the other one.
    pub fn union(&self, other: &Slots) -> Slots
        ensures members { (j : ℕ) →
            HasSlot result j ↔ (HasSlot self.now j ⊎ HasSlot other.now j) }
        ensures well_formed { IsSlotSet result }
    {
        let _ = &self.marks;
        let _ = &other.marks;
        let mut both = Slots::empty();
        for slot in 0..32 {
            if self.has(slot) || other.has(slot) {
                both.add(slot);
            }
        }
        both
    }

    /// The slots of this set that aren't in the other one.
    pub fn difference(&self, other: &Slots) -> Slots
        ensures members { (j : ℕ) →
            HasSlot result j ↔ (HasSlot self.now j × ¬ HasSlot other.now j) }
        ensures well_formed { IsSlotSet result }
    {
        let _ = &self.marks;
        let mut rest = Slots::empty();
        for slot in 0..32 {
            if self.has(slot) && !other.has(slot) {
                rest.add(slot);
            }
        }
        rest
    }

    /// How many slots are in the set, at most 32.
    pub fn count(&self) -> u8
        ensures value { result ≡ slot_count self.now }
        ensures well_formed { IsSlotSet self.now }
    {
        let mut marked = 0;
        for slot in 0..32 {
            marked += u8::from(self.marks[slot]);
        }
        marked
    }
}

/// A set of cells of a stripe, each a row and a slot below 32: which cells are erased, or which ones a journal records.
///
/// Two sets are equal exactly where they have the same cells.
#[derive(Clone, Copy, Debug, PartialEq, Eq)]
pub struct CellSet {
    rows: [Slots; 32],
}

impl Model for CellSet {
    ghost use Rattle.stair_model.specs.CellSet.{CellSet as Cells, IsCellSet};

    ghost Value = { Cells };

    ghost view = { λ s. record { rows = s.rows } };

    ghost invariant = { λ s. IsCellSet (record { rows = s.rows }) };

    ghost inverse = { λ set. record { rows = set.rows } };
}

impl CellSet {
    /// The set without cells.
    pub fn empty() -> CellSet
        ensures none { (i j : ℕ) → ¬ HasCell result i j }
        ensures well_formed { IsCellSet result }
    {
        CellSet {
            rows: [Slots::empty(); 32],
        }
    }

    /// Adds the cell in this row of this slot's chunk, both below 32; one that is in the set stays in it.
    pub fn add(&mut self, row: u8, slot: u8)
        requires row_in { row < 32 }
        requires slot_in { slot < 32 }
        ensures members { (i j : ℕ) →
            HasCell self.new i j ↔ (HasCell self.old i j ⊎ ((i ≡ row) × (j ≡ slot))) }
        ensures well_formed { IsCellSet self.new }
    {
        self.rows[usize::from(row)].add(slot);
    }

    /// Whether the cell in this row of this slot's chunk, both below 32, is in the set.
    pub fn has(&self, row: u8, slot: u8) -> bool
        requires row_in { row < 32 }
        requires slot_in { slot < 32 }
        ensures member { IsTrue result ↔ HasCell self.now row slot }
        ensures well_formed { IsCellSet self.now }
    {
        self.rows[usize::from(row)].has(slot)
    }

    /// The cells that are in this set or in the other one.
    pub fn union(&self, other: &CellSet) -> CellSet
        ensures members { (i j : ℕ) →
            HasCell result i j ↔ (HasCell self.now i j ⊎ HasCell other.now i j) }
        ensures well_formed { IsCellSet result }
    {
        let mut both = *self;
        for row in 0..32 {
            both.rows[row] = both.rows[row].union(&other.rows[row]);
        }
        both
    }

    /// How many cells are in the set, at most 1,024.
    pub fn count(&self) -> u16
        ensures value { result ≡ cell_count self.now }
        ensures well_formed { IsCellSet self.now }
    {
        let mut count = 0;
        for row in &self.rows {
            count += u16::from(row.count());
        }
        count
    }

    /// How many cells of this row, a number below 32, are in the set: at most 32.
    pub fn count_in_row(&self, row: u8) -> u8
        requires { row < 32 }
        ensures value { result ≡ count_in_row self.now row }
        ensures well_formed { IsCellSet self.now }
    {
        self.rows[usize::from(row)].count()
    }

    /// The rest of a set: its cells that lie in a row with more than m of them.
    pub fn rest(&self, geometry: &Geometry) -> CellSet
        ensures value { result ≡ rest geometry.now self.now }
        ensures well_formed { IsCellSet self.now }
    {
        let m = geometry.m();
        let mut rest = *self;
        for row in 0..32 {
            if rest.rows[row].count() <= m {
                rest.rows[row] = Slots::empty();
            }
        }
        rest
    }

    /// For each slot, how many of its cells are in the set: at most 32.
    pub fn counts(&self) -> [u8; 32]
        ensures value { (j : ℕ) → j < 32 → slice_index result j ≡ count_in_slot self.now j }
        ensures well_formed { IsCellSet self.now }
    {
        let mut counts = [0; 32];
        for row in 0..32 {
            count_slots(&mut counts, &self.rows[row]);
        }
        counts
    }
}

/// Adds 1 to the count of each slot of the set.
fn count_slots(counts: &mut [u8; 32], slots: &Slots)
    requires { (j : ℕ) → j < 32 → slice_index counts.old j < 32 }
    ensures { (j : ℕ) → j < 32 → slice_index counts.new j ≡
        slice_index counts.old j + (if has_slot slots.now j then 1 else 0) }
{
    for slot in 0..32 {
        counts[slot] += u8::from(slots.marks[slot]);
    }
}
