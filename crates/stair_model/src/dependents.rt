//! The laws of dependents: which cells of a stripe change with a data cell, and by which factors.

ghost use Rattle.std.specs.Prelude.{◌≡◌, ◌≢◌, ℕ, ◌+◌, ◌<◌, ◌⊎◌, ◌↔◌, List, slice_index, bit_xor};
ghost use Rattle.stair_model.specs.Cell.{Data, cell_at};
ghost use Rattle.stair_model.specs.CellSet.{CellSet, IsCellSet, cell_count};
ghost use Rattle.stair_model.specs.Codeword.{IsCodeword};
ghost use Rattle.stair_model.specs.Costs.{unit_blocks, nonzero_parities, IsStandardCost};
ghost use Rattle.stair_model.specs.Dependents.{
  IsDependentIn,
  IsDependent,
  AreDependents,
  IsFactor,
  SameOtherData,
  HasBlockSet,
  IsUpdatedFrom,
};
ghost use Rattle.stair_model.specs.Encoding.{IsEncodingOf};
ghost use Rattle.stair_model.specs.Field.{product};
ghost use Rattle.stair_model.specs.Geometry.{Geometry, IsWithinLimits, data_cells};
ghost use Rattle.stair_model.specs.Stripe.{
  Stripe,
  SECTOR,
  IsSector,
  IsStripeOf,
  IsWellFormed,
  cell,
  byte_of,
};
ghost use Rattle.stair_model.specs.Sum.{sum_below};

/// Which cells are the dependents of a data cell, for every geometry within the limits. It does
/// nothing.
///
/// They are told by an encoded stripe, and it doesn't matter by which: 'whatever it is', as the
/// definition has it, is the same as 'in some' (`in_some`), and as in any one at hand (`in_any`).
pub fn dependent_laws()
    ensures in_some { (g : Geometry) (d i j : ℕ) → IsWithinLimits g →
        (IsDependent g d i j ↔ ((i < g.r) × (j < g.n) × (encoded : Stripe)
        × IsEncodingOf g (unit_blocks g d) encoded × IsDependentIn g encoded d i j)) }
    ensures in_any { (g : Geometry) (d i j : ℕ) (encoded : Stripe) → IsWithinLimits g →
        IsEncodingOf g (unit_blocks g d) encoded → i < g.r → j < g.n →
        (IsDependent g d i j ↔ IsDependentIn g encoded d i j) }
    ensures decided { (g : Geometry) (d i j : ℕ) → IsWithinLimits g → i < g.r → j < g.n →
        IsDependent g d i j ⊎ ¬ IsDependent g d i j }
    ensures itself { (g : Geometry) (d i j : ℕ) → i < g.r → j < g.n → cell_at g i j ≡ Data d →
        IsDependent g d i j }
    ensures no_other_data { (g : Geometry) (d i j e : ℕ) → IsWithinLimits g →
        IsDependent g d i j → cell_at g i j ≡ Data e → e ≡ d }
    ensures some_set { (g : Geometry) (d : ℕ) → IsWithinLimits g →
        (set : CellSet) × IsCellSet set × AreDependents g d set }
    ensures one_set { (g : Geometry) (d : ℕ) (a b : CellSet) → IsCellSet a → IsCellSet b →
        AreDependents g d a → AreDependents g d b → a ≡ b }
    // the data cell itself, and each parity of which standard encoding takes a step for it
    ensures count { (g : Geometry) (d : ℕ) (set : CellSet) (encoded : Stripe) → IsWithinLimits g →
        d < data_cells g → AreDependents g d set → IsEncodingOf g (unit_blocks g d) encoded →
        cell_count set ≡ nonzero_parities g encoded + 1 }
    // so many steps in all, and beside them each data cell itself
    ensures cost { (g : Geometry) (cost : ℕ) (set : ℕ → CellSet) → IsWithinLimits g →
        IsStandardCost g cost → ((d : ℕ) → d < data_cells g → AreDependents g d (set d)) →
        sum_below (data_cells g) (λ d. cell_count (set d)) ≡ cost + data_cells g }
{}

/// The factor of each cell over a data cell, for every geometry within the limits. It does nothing.
pub fn factor_laws()
    ensures exists { (g : Geometry) (d i j : ℕ) → IsWithinLimits g → i < g.r → j < g.n →
        (factor : ℕ) × (factor < 256) × IsFactor g d i j factor }
    ensures unique { (g : Geometry) (d i j a b : ℕ) → IsWithinLimits g →
        IsFactor g d i j a → IsFactor g d i j b → a ≡ b }
    ensures itself { (g : Geometry) (d i j factor : ℕ) → IsWithinLimits g → i < g.r → j < g.n →
        IsFactor g d i j factor → cell_at g i j ≡ Data d → factor ≡ 1 }
    ensures other_data { (g : Geometry) (d i j factor : ℕ) → IsWithinLimits g → i < g.r → j < g.n →
        IsFactor g d i j factor → (e : ℕ) → cell_at g i j ≡ Data e → e ≢ d → factor ≡ 0 }
    // the dependents are the cells with a factor that isn't zero
    ensures dependents { (g : Geometry) (d i j factor : ℕ) → IsWithinLimits g → i < g.r → j < g.n →
        IsFactor g d i j factor → (IsDependent g d i j ↔ (factor ≢ 0)) }
{}

/// What changes with one block of a codeword, for every geometry within the limits. It does
/// nothing.
///
/// Two codewords that differ in data cell d alone differ in its dependents, each by its factor
/// times the difference of the block, and in no other cell. So a write of one block changes these
/// cells alone, and each of them where it changes the block.
pub fn difference_laws()
    // cell (k, l) is data cell d
    ensures factor { (g : Geometry) (d : ℕ) (a b : Stripe) → IsWithinLimits g →
        IsStripeOf g a → IsWellFormed a → IsCodeword g a →
        IsStripeOf g b → IsWellFormed b → IsCodeword g b → SameOtherData g d a b →
        (k l : ℕ) → k < g.r → l < g.n → cell_at g k l ≡ Data d →
        (p i j factor : ℕ) → p < SECTOR → i < g.r → j < g.n → IsFactor g d i j factor →
        byte_of b p i j ≡
        bit_xor (byte_of a p i j) (product factor (bit_xor (byte_of b p k l) (byte_of a p k l))) }
    ensures others_stay { (g : Geometry) (d : ℕ) (a b : Stripe) → IsWithinLimits g →
        IsStripeOf g a → IsWellFormed a → IsCodeword g a →
        IsStripeOf g b → IsWellFormed b → IsCodeword g b → SameOtherData g d a b →
        (i j : ℕ) → i < g.r → j < g.n → ¬ IsDependent g d i j → cell a i j ≡ cell b i j }
    ensures dependents_change { (g : Geometry) (d : ℕ) (a b : Stripe) → IsWithinLimits g →
        IsStripeOf g a → IsWellFormed a → IsCodeword g a →
        IsStripeOf g b → IsWellFormed b → IsCodeword g b → SameOtherData g d a b →
        (k l : ℕ) → k < g.r → l < g.n → cell_at g k l ≡ Data d →
        (i j : ℕ) → IsDependent g d i j → cell a i j ≡ cell b i j → cell a k l ≡ cell b k l }
{}

/// What it is to set one block of a stripe, for every geometry within the limits. It does nothing.
///
/// Each codeword has one codeword with the block set, and a stripe is updated to it by adding, to
/// each cell, the cell's factor times the difference of the block.
pub fn update_laws()
    ensures exists { (g : Geometry) (d : ℕ) (block : List ℕ) (before : Stripe) → IsWithinLimits g →
        IsStripeOf g before → IsWellFormed before → IsSector block →
        (after : Stripe) × HasBlockSet g d block before after }
    ensures unique { (g : Geometry) (d : ℕ) (block : List ℕ) (before a b : Stripe) →
        IsWithinLimits g → HasBlockSet g d block before a → HasBlockSet g d block before b → a ≡ b }
    // cell (k, l) is data cell d
    ensures by_factors { (g : Geometry) (d k l : ℕ) (block : List ℕ) (old new : Stripe) →
        IsWithinLimits g → k < g.r → l < g.n → cell_at g k l ≡ Data d →
        IsStripeOf g old → IsWellFormed old → IsStripeOf g new → IsWellFormed new →
        ((p i j factor : ℕ) → p < SECTOR → i < g.r → j < g.n → IsFactor g d i j factor →
        byte_of new p i j ≡ bit_xor (byte_of old p i j)
        (product factor (bit_xor (slice_index block p) (byte_of old p k l)))) →
        IsUpdatedFrom g d block old new }
{}
