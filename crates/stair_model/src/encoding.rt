//! The laws of encoding: the data cells of a stripe determine its parities.

ghost use Rattle.std.specs.Prelude.{◌≡◌, ℕ, List, length, All};
ghost use Rattle.stair_model.specs.Geometry.{Geometry, IsWithinLimits, data_cells};
ghost use Rattle.stair_model.specs.Stripe.{Stripe, IsSector, IsStripeOf, IsWellFormed};
ghost use Rattle.stair_model.specs.Codeword.{IsCodeword};
ghost use Rattle.stair_model.specs.Costs.{IsStandardCost};
ghost use Rattle.stair_model.specs.Encoding.{IsEncodedFrom, IsEncodingOf, SameData};

/// The data cells of a stripe may hold any blocks, and determine its row parities and global parities, for every geometry
/// within the limits. It does nothing.
///
/// So encoding is a function of the blocks, although a codeword is defined by equations: whoever fills in the parities, by
/// whatever way, has the one encoded stripe as soon as all equations hold.
pub fn encoding_laws()
    ensures exists { (g : Geometry) (blocks : List (List ℕ)) → IsWithinLimits g →
        length blocks ≡ data_cells g → All IsSector blocks → (stripe : Stripe)
        × IsEncodingOf g blocks stripe }
    ensures unique { (g : Geometry) (blocks : List (List ℕ)) (a b : Stripe) → IsWithinLimits g →
        IsEncodingOf g blocks a → IsEncodingOf g blocks b → a ≡ b }
    // two codewords with the same data cells are one
    ensures agrees { (g : Geometry) (a b : Stripe) → IsWithinLimits g →
        IsStripeOf g a → IsWellFormed a → IsCodeword g a →
        IsStripeOf g b → IsWellFormed b → IsCodeword g b → SameData g a b → a ≡ b }
    // two ways to encode one stripe end in one stripe
    ensures same { (g : Geometry) (before a b : Stripe) → IsWithinLimits g →
        IsEncodedFrom g before a → IsEncodedFrom g before b → a ≡ b }
{}

/// Standard encoding of a stripe takes one number of steps, for every geometry within the limits. It does nothing.
///
/// So 'whatever the encoded stripes are', by which the number is defined, is neither a demand that no number meets nor one
/// that several meet.
pub fn cost_laws()
    ensures exists { (g : Geometry) → IsWithinLimits g → (cost : ℕ) × IsStandardCost g cost }
    ensures unique { (g : Geometry) (a b : ℕ) → IsWithinLimits g →
        IsStandardCost g a → IsStandardCost g b → a ≡ b }
{}
