//! The laws of sets of cells, and of coverage: which erased cells of a stripe the code can restore.

ghost use Rattle.std.specs.Prelude.{◌≡◌, ℕ, ◌+◌, ◌<◌, ◌≤◌, ◌↔◌, ◌⊎◌, List, [], ◌∷◌};
ghost use Rattle.std.specs.List.{range_with_len};
ghost use Rattle.std.specs.List.Sorted.{IsPermutation};
ghost use Rattle.stair_model.specs.Geometry.{Geometry, IsWithinLimits};
ghost use Rattle.stair_model.specs.Slots.{Slots, HasSlot, slot_count, IsSlotSet};
ghost use Rattle.stair_model.specs.CellSet.{CellSet, HasCell, IsCellSet, count_in_row, cell_count};
ghost use Rattle.stair_model.specs.Coverage.{
  AreSortedCounts,
  AreWithinCoverage,
  HasCoveredChunks,
  IsCovered,
  IsCoveredOrder,
  HasEachOnce,
  rest,
};
ghost use Rattle.stair_model.specs.Examples.{four_devices, eight_devices};

/// Sets with the same members are equal. It does nothing.
pub fn set_laws()
    ensures slots { (a b : Slots) → IsSlotSet a → IsSlotSet b →
        ((j : ℕ) → HasSlot a j ↔ HasSlot b j) → a ≡ b }
    ensures cells { (a b : CellSet) → IsCellSet a → IsCellSet b →
        ((i j : ℕ) → HasCell a i j ↔ HasCell b i j) →
        a ≡ b }
{}

/// How many slots a set has, which its members alone tell. It does nothing.
///
/// The cells of a row are a set of slots, so that this is also told of `count_in_row`.
pub fn slot_count_laws()
    ensures none { (set : Slots) → ((j : ℕ) → j < 32 → ¬ HasSlot set j) → slot_count set ≡ 0 }
    ensures most { (set : Slots) → slot_count set ≤ 32 }
    ensures same { (a b : Slots) → ((j : ℕ) → j < 32 → HasSlot a j ↔ HasSlot b j) →
        slot_count a ≡ slot_count b }
    ensures subset { (fewer more : Slots) → ((j : ℕ) → HasSlot fewer j → HasSlot more j) →
        slot_count fewer ≤ slot_count more }
    // with a slot that wasn't in the set, one more
    ensures one_more { (fewer more : Slots) (x : ℕ) → x < 32 → ¬ HasSlot fewer x →
        ((j : ℕ) → j < 32 → HasSlot more j ↔ (HasSlot fewer j ⊎ (j ≡ x))) →
        slot_count more ≡ slot_count fewer + 1 }
    // with a slot that was in it, as many
    ensures again { (a b : Slots) (x : ℕ) → HasSlot a x →
        ((j : ℕ) → j < 32 → HasSlot b j ↔ (HasSlot a j ⊎ (j ≡ x))) → slot_count b ≡ slot_count a }
    ensures member { (set : Slots) → 0 < slot_count set → (j : ℕ) × (j < 32) × HasSlot set j }
{}

/// How many cells a set has, which its members alone tell. It does nothing.
pub fn cell_count_laws()
    ensures none { (cells : CellSet) → ((i j : ℕ) → i < 32 → j < 32 → ¬ HasCell cells i j) →
        cell_count cells ≡ 0 }
    ensures most { (cells : CellSet) → cell_count cells ≤ 1024 }
    ensures same { (a b : CellSet) → ((i j : ℕ) → i < 32 → j < 32 → HasCell a i j ↔ HasCell b i j) →
        cell_count a ≡ cell_count b }
    // with a cell that wasn't in the set, one more
    ensures one_more { (fewer more : CellSet) (x y : ℕ) → x < 32 → y < 32 → ¬ HasCell fewer x y →
        ((i j : ℕ) → i < 32 → j < 32 →
        HasCell more i j ↔ (HasCell fewer i j ⊎ ((i ≡ x) × (j ≡ y)))) →
        cell_count more ≡ cell_count fewer + 1 }
    // with a cell that was in it, as many
    ensures again { (a b : CellSet) (x y : ℕ) → HasCell a x y →
        ((i j : ℕ) → i < 32 → j < 32 →
        HasCell b i j ↔ (HasCell a i j ⊎ ((i ≡ x) × (j ≡ y)))) →
        cell_count b ≡ cell_count a }
    ensures member { (cells : CellSet) → 0 < cell_count cells →
        (i j : ℕ) × (i < 32) × (j < 32) × HasCell cells i j }
{}

/// What is left of a set of erased cells where each row with at most m of them is solved by its own parities. It does
/// nothing.
pub fn rest_laws()
    ensures cells { (g : Geometry) (cells : CellSet) (i j : ℕ) →
        HasCell (rest g cells) i j ↔ (HasCell cells i j × (g.m < count_in_row cells i)) }
    ensures monotone { (g : Geometry) (fewer more : CellSet) →
        ((i j : ℕ) → HasCell fewer i j → HasCell more i j) →
        (i j : ℕ) → HasCell (rest g fewer) i j → HasCell (rest g more) i j }
    ensures well_formed { (g : Geometry) (cells : CellSet) → IsCellSet cells →
        IsCellSet (rest g cells) }
{}

/// Which sets of erased cells are covered. It does nothing.
///
/// The code restores each row with at most m erased cells and, of what is left, m whole chunks and some cells of m'
/// further ones. What is covered stays so where fewer cells are erased.
pub fn coverage_laws()
    ensures none { (g : Geometry) (erased : CellSet) → ((i j : ℕ) → ¬ HasCell erased i j) →
        IsCovered g erased }
    // all cells of at most m chunks
    ensures whole_chunks { (g : Geometry) (erased : CellSet) (lost : Slots) → IsWithinLimits g →
        slot_count lost ≤ g.m →
        ((i j : ℕ) → HasCell erased i j → HasSlot lost j) → IsCovered g erased }
    // all cells of m chunks, and of further ones as many as their classes cover
    ensures further_chunks { (g : Geometry) (erased : CellSet) → HasCoveredChunks g erased →
        IsCovered g erased }
    // m cells of each row
    ensures rows { (g : Geometry) (erased : CellSet) → ((i : ℕ) → count_in_row erased i ≤ g.m) →
        IsCovered g erased }
    ensures subset { (g : Geometry) (fewer erased : CellSet) →
        ((i j : ℕ) → HasCell fewer i j → HasCell erased i j) → IsCovered g erased →
        IsCovered g fewer }
    // there is one list of sorted counts of the rest at least, and all of them tell the same
    ensures each { (g : Geometry) (erased : CellSet) →
        IsCovered g erased ↔ ((c : List ℕ) → AreSortedCounts g (rest g erased) c →
        AreWithinCoverage g c) }
    // the chunks themselves can be put in order
    ensures order { (g : Geometry) (erased : CellSet) →
        IsCovered g erased ↔ ((order : List ℕ) × IsCoveredOrder g (rest g erased) order) }
    // so that each chunk has its one place
    ensures places { (n : ℕ) (order : List ℕ) → IsPermutation (range_with_len 0 n) order →
        HasEachOnce n order }
{}

/// Sorted counts of two geometries, judged by hand from the text of the definition. It does nothing.
pub fn known_counts()
    // the coverage vector is (1, 1, 2), and two chunks may be lost
    ensures eight_within { AreWithinCoverage eight_devices (4 ∷ 4 ∷ 2 ∷ 1 ∷ 1 ∷ 0 ∷ 0 ∷ 0 ∷ []) }
    ensures eight_two_twos { ¬ AreWithinCoverage eight_devices
        (4 ∷ 4 ∷ 2 ∷ 2 ∷ 1 ∷ 0 ∷ 0 ∷ 0 ∷ []) }
    ensures eight_six_chunks { ¬ AreWithinCoverage eight_devices
        (1 ∷ 1 ∷ 1 ∷ 1 ∷ 1 ∷ 1 ∷ 0 ∷ 0 ∷ []) }
    // the coverage vector is (1), and one chunk may be lost
    ensures four_within { AreWithinCoverage four_devices (2 ∷ 1 ∷ 0 ∷ 0 ∷ []) }
    ensures four_three_chunks { ¬ AreWithinCoverage four_devices (2 ∷ 1 ∷ 1 ∷ 0 ∷ []) }
{}
