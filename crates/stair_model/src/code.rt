//! The laws of systematic Cauchy codes, on which the row code and the column code of a stripe stand.
//!
//! The places of a word are numbered from 0. The first `held` hold symbols as they are; each further one, up to `total`,
//! is a parity of those by its row of a Cauchy matrix, whose points are the numbers of the places themselves (J. Blömer,
//! M. Kalfane, R. Karp, M. Karpinski, M. Luby and D. Zuckerman, An XOR-Based Erasure-Resilient Coding Scheme, 1995).

ghost use Rattle.std.specs.Prelude.{◌≡◌, ℕ, ◌<◌, ◌≤◌, List, bit_xor};
ghost use Rattle.stair_model.specs.Field.{product, inverse};
ghost use Rattle.stair_model.specs.Sum.{field_sum};
ghost use Rattle.stair_model.specs.CauchyCode.{
  coefficient,
  AreBytes,
  IsSystematicCodeword,
  AreKnownPlaces,
  Agree,
  AreCauchyPoints,
};

/// What known places say of a word, for each code of at most 256 places. It does nothing.
///
/// Any `held` places determine a codeword, and may hold any bytes. A word is a codeword where its bytes times the weights
/// of their places are the values of a polynomial of degree below `held`, as in a code of Reed and Solomon (Polynomial
/// Codes over Certain Finite Fields, 1960).
///
/// `nonsingular` says that a square Cauchy matrix, of any size and over any points, takes only zeros to zeros. Each square
/// part of a code's matrix is such a matrix, over the numbers of its rows' places and its columns' places.
pub fn cauchy_laws()
    ensures exists { (held total : ℕ) (known : List ℕ) (w : ℕ → ℕ) → held ≤ total → total ≤ 256 →
        AreKnownPlaces held total known → AreBytes total w →
        (c : ℕ → ℕ) × IsSystematicCodeword held total (coefficient held) c × Agree known c w }
    ensures determined { (held total : ℕ) (known : List ℕ) (c d : ℕ → ℕ) (b : ℕ) →
        held ≤ total → total ≤ 256 →
        AreKnownPlaces held total known →
        IsSystematicCodeword held total (coefficient held) c →
        IsSystematicCodeword held total (coefficient held) d →
        Agree known c d → b < total → c b ≡ d b }
    ensures nonsingular { (n : ℕ) (x y v : ℕ → ℕ) → AreCauchyPoints n x y → AreBytes n v →
        ((i : ℕ) → i < n → field_sum n (λ j. product (inverse (bit_xor (x i) (y j))) (v j)) ≡ 0) →
        (j : ℕ) → j < n → v j ≡ 0 }
{}
