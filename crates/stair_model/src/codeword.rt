//! The laws of sums of codewords.

ghost use Rattle.std.specs.Prelude.{◌≡◌, ℕ, ◌<◌, bit_xor};
ghost use Rattle.stair_model.specs.Codeword.{Word, MeetsEquations, IsCodeword};
ghost use Rattle.stair_model.specs.Field.{product};
ghost use Rattle.stair_model.specs.Geometry.{Geometry, IsWithinLimits};
ghost use Rattle.stair_model.specs.Stripe.{Stripe, SECTOR, byte_of};
ghost use Rattle.stair_model.specs.Sum.{field_sum};

/// Sums of multiples of codewords are codewords, for every geometry. It does nothing.
///
/// The byte positions of a stripe don't touch each other, so that the multiple may be another one
/// at each of them.
pub fn sum_laws()
    ensures zero { (g : Geometry) → MeetsEquations g (λ i j. 0) }
    // one word, and a multiple of another
    ensures multiple { (g : Geometry) (v w : Word) (by : ℕ) →
        MeetsEquations g v → MeetsEquations g w →
        MeetsEquations g (λ i j. bit_xor (v i j) (product by (w i j))) }
    // multiples of n words
    ensures multiples { (g : Geometry) (n : ℕ) (by : ℕ → ℕ) (x : ℕ → Word) →
        ((d : ℕ) → d < n → MeetsEquations g (x d)) →
        MeetsEquations g (λ i j. field_sum n (λ d. product (by d) (x d i j))) }
    // one stripe, and a multiple of another at each byte position
    ensures stripes { (g : Geometry) (a b sum : Stripe) (by : ℕ → ℕ) → IsWithinLimits g →
        IsCodeword g a → IsCodeword g b →
        ((p i j : ℕ) → p < SECTOR → i < g.r → j < g.n →
        byte_of sum p i j ≡ bit_xor (byte_of a p i j) (product (by p) (byte_of b p i j))) →
        IsCodeword g sum }
{}
