//! Laws of gates.

ghost use Rattle.std.specs.Prelude.{◌≡◌, ◌⊎◌, ◌↔◌, ◌∷◌, [], ℕ, List, drop, length, take};
ghost use Rattle.stair_model.specs.CellSet.{HasCell};
ghost use Rattle.stair_model.specs.Geometry.{Geometry, IsWithinLimits};
ghost use Rattle.stair_model.specs.Stripe.{SECTOR};
ghost use Rattle.stair_rack.specs.Sector.{Cell, Good};
ghost use Rattle.stair_journal.specs.Gate.{IsOpenWith, ReadsClosed, closed_gate, open_gate};
ghost use Rattle.stair_journal.specs.declared.redo.Redo.{Redo};

/// What gates say. It does nothing.
pub fn gate_laws()
    // each has the bytes of a sector
    ensures closed_sector { length closed_gate ≡ SECTOR }
    ensures open_sector { (g : Geometry) (redo : Redo) → length (open_gate g redo) ≡ SECTOR }
    // a closed gate reads as closed
    ensures closed { (g : Geometry) → ReadsClosed g (Good closed_gate) }
    // a gate is open with one redo at most
    ensures once { (g : Geometry) (cell : Cell) (a b : Redo) → IsWithinLimits g →
        IsOpenWith g cell a → IsOpenWith g cell b → a ≡ b }
{}

/// The example of the format: the gate that is open with a redo of stripe 2 of four devices, of the cells (0, 0), (0, 3),
/// (1, 2) and (1, 3), whose numbers are 0, 3, 6 and 7. It does nothing.
pub fn known_gate()
    ensures bytes { (g : Geometry) (redo : Redo) → g.n ≡ 4 → redo.stripe ≡ 2 →
        ((i j : ℕ) → HasCell redo.cells i j ↔
        (((i ≡ 0) × ((j ≡ 0) ⊎ (j ≡ 3))) ⊎ ((i ≡ 1) × ((j ≡ 2) ⊎ (j ≡ 3))))) →
        take 5 (drop 12 (open_gate g redo)) ≡ 0 ∷ 0 ∷ 0 ∷ 2 ∷ 147 ∷ [] }
{}
