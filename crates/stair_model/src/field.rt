//! The laws of GF(2^8), the field of 256 elements whose products are taken modulo x^8 + x^4 + x^3 + x^2 + 1 (0x11D),
//! the polynomial of the field in J. S. Plank, A Tutorial on Reed-Solomon Coding for Fault-Tolerance in RAID-like
//! Systems (1997), and in H. P. Anvin, The mathematics of RAID-6. Sums are exclusive ors.

ghost use Rattle.std.specs.Prelude.{◌≡◌, ℕ, ◌*◌, ◌%◌, ◌<◌, ◌⊎◌, bit_xor};
ghost use Rattle.stair_model.specs.Field.{product, inverse};

/// The laws of the product. Of its factors the low eight bits count, so a law that names no bound holds for all numbers.
///
/// With the reduction of x·x^7 in [`known_products`] they leave one product only: it is additive in each factor, and
/// `doubling` says what 2, the element x, makes of the smaller powers of x.
pub fn product_laws()
    ensures is_byte { (a b : ℕ) → product a b < 256 }
    ensures low_bits { (a b : ℕ) → product (a % 256) b ≡ product a b }
    ensures commutative { (a b : ℕ) → product a b ≡ product b a }
    ensures associative { (a b c : ℕ) → product (product a b) c ≡ product a (product b c) }
    ensures distributes_left { (a b c : ℕ) → product (bit_xor a b) c
        ≡ bit_xor (product a c) (product b c) }
    ensures distributes_right { (a b c : ℕ) →
        product a (bit_xor b c) ≡ bit_xor (product a b) (product a c) }
    ensures zero { (a : ℕ) → product 0 a ≡ 0 }
    ensures unit { (a : ℕ) → a < 256 → product 1 a ≡ a }
    ensures doubling { (a : ℕ) → a < 128 → product 2 a ≡ 2 * a }
    ensures no_zero_divisors { (a b : ℕ) → a < 256 → b < 256 → product a b ≡ 0 → (a ≡ 0) ⊎ (b ≡ 0) }
{}

/// The laws of the inverse: each byte but 0 has one, and no other byte serves.
pub fn inverse_laws()
    ensures is_byte { (a : ℕ) → 0 < a → a < 256 → (0 < inverse a) × (inverse a < 256) }
    ensures inverse { (a : ℕ) → 0 < a → a < 256 → product a (inverse a) ≡ 1 }
    ensures only { (a b : ℕ) → 0 < a → a < 256 → b < 256 → product a b ≡ 1 → b ≡ inverse a }
    ensures cancels { (a b c : ℕ) → 0 < a → a < 256 → b < 256 → c < 256 →
        product a b ≡ product a c → b ≡ c }
{}

/// Values that are known from elsewhere: x times x^7, and the inverses of 2 to 7, as the inverse table of the RAID-6 code
/// in Linux has them.
pub fn known_products()
    ensures reduction { product 2 0x80 ≡ 0x1D }
    ensures half { inverse 2 ≡ 0x8E }
    ensures third { inverse 3 ≡ 0xF4 }
    ensures fourth { inverse 4 ≡ 0x47 }
    ensures fifth { inverse 5 ≡ 0xA7 }
    ensures sixth { inverse 6 ≡ 0x7A }
    ensures seventh { inverse 7 ≡ 0xBA }
{}
