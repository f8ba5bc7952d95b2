//! The laws of the canonical stripe, and where it meets the equations of the code.

ghost use Rattle.std.specs.Prelude.{◌≡◌, ℕ, ◌+◌, ◌<◌, ◌↔◌};
ghost use Rattle.stair_model.specs.Canonical.{
  HasGlobalZeros,
  IsCanonicalCodeword,
  IsColumnCodeword,
  IsExtensionOf,
  IsRowCodeword,
  canonical_chunks,
  canonical_rows,
};
ghost use Rattle.stair_model.specs.CauchyCode.{IsSystematicCodeword};
ghost use Rattle.stair_model.specs.Codeword.{IsCodeword, MeetsRowEquations, Word};
ghost use Rattle.stair_model.specs.Geometry.{Geometry, IsWithinLimits, greatest_coverage};
ghost use Rattle.stair_model.specs.Stripe.{IsStripeOf, IsWellFormed, SECTOR, Stripe, byte_of};

/// Rows and columns of a grid: where its first rows are extended by one code and all its columns by another, every
/// further row is a codeword of the first code too. It does nothing.
///
/// `matrices` says so of any two codes, by their matrices alone; `rows` of the row code and the column code of each
/// geometry. So the virtual rows of a canonical stripe are codewords of the row code (the product of two codes: P. Elias,
/// Error-Free Coding, 1954), and `extension` says it of the equations: of bytes that meet the row equations, each virtual
/// row of their extension is a codeword of the row code.
pub fn product_law()
    ensures matrices { (held total depth height : ℕ) (row_matrix column_matrix : ℕ → ℕ → ℕ)
        (w : Word) →
        ((i : ℕ) → i < depth → IsSystematicCodeword held total row_matrix (λ j. w i j)) →
        ((j : ℕ) → j < total → IsSystematicCodeword depth height column_matrix (λ i. w i j)) →
        (i : ℕ) → i < height → IsSystematicCodeword held total row_matrix (λ j. w i j) }
    ensures rows { (g : Geometry) (x : Word) →
        ((i : ℕ) → i < g.r → IsRowCodeword g (λ j. x i j)) →
        ((j : ℕ) → j < canonical_chunks g → IsColumnCodeword g (λ i. x i j)) →
        (h : ℕ) → h < greatest_coverage g → IsRowCodeword g (λ j. x (g.r + h) j) }
    ensures extension { (g : Geometry) (w x : Word) → IsWithinLimits g →
        ((i j : ℕ) → i < g.r → j < g.n → w i j < 256) → MeetsRowEquations g w →
        IsExtensionOf g w x →
        (h : ℕ) → h < greatest_coverage g → IsRowCodeword g (λ j. x (g.r + h) j) }
{}

/// The bytes of a stripe at one position have exactly one extension by intermediate chunks and virtual symbols, each chunk
/// of which is a codeword of the column code. It does nothing.
pub fn extension_laws()
    ensures exists { (g : Geometry) (w : Word) → (x : Word) × IsExtensionOf g w x }
    ensures one { (g : Geometry) (w x y : Word) → IsExtensionOf g w x → IsExtensionOf g w y →
        (i j : ℕ) → i < canonical_rows g → j < canonical_chunks g → x i j ≡ y i j }
    ensures chunks { (g : Geometry) (w x : Word) →
        ((i j : ℕ) → i < g.r → j < g.n → w i j < 256) → IsExtensionOf g w x →
        (j : ℕ) → j < canonical_chunks g → IsColumnCodeword g (λ i. x i j) }
{}

/// A stripe is a codeword exactly where its rows meet the row equations and, in its extension, the first e_l virtual
/// symbols of intermediate chunk l are zero for every l: `bridge`. It does nothing.
///
/// Nothing else ties the equations to the canonical stripe. `extends` and `holds` say the same in the words of the two
/// codes: the extension of a codeword is a canonical codeword, and a stripe that holds the cells of a canonical codeword is
/// a codeword.
pub fn codeword_laws()
    ensures bridge { (g : Geometry) (stripe : Stripe) (x : ℕ → Word) → IsWithinLimits g →
        ((p : ℕ) → p < SECTOR → IsExtensionOf g (byte_of stripe p) (x p)) →
        (IsCodeword g stripe ↔
        ((p : ℕ) → p < SECTOR → MeetsRowEquations g (byte_of stripe p) × HasGlobalZeros g (x p))) }
    ensures extends { (g : Geometry) (stripe : Stripe) (p : ℕ) (x : Word) → IsWithinLimits g →
        IsStripeOf g stripe → IsWellFormed stripe → IsCodeword g stripe → p < SECTOR →
        IsExtensionOf g (byte_of stripe p) x → IsCanonicalCodeword g x }
    ensures holds { (g : Geometry) (stripe : Stripe) (x : ℕ → Word) → IsWithinLimits g →
        ((p : ℕ) → p < SECTOR →
        ((i j : ℕ) → i < g.r → j < g.n → x p i j ≡ byte_of stripe p i j)
        × IsCanonicalCodeword g (x p)) →
        IsCodeword g stripe }
{}
