//! The laws of restoring: the cells that are held determine the erased ones.

ghost use Rattle.std.specs.Prelude.{◌≡◌};
ghost use Rattle.stair_model.specs.Geometry.{Geometry, IsWithinLimits};
ghost use Rattle.stair_model.specs.CellSet.{CellSet};
ghost use Rattle.stair_model.specs.Coverage.{IsCovered};
ghost use Rattle.stair_model.specs.Stripe.{Stripe, IsStripeOf, IsWellFormed};
ghost use Rattle.stair_model.specs.Codeword.{IsCodeword};
ghost use Rattle.stair_model.specs.Restoring.{SameHeld};

/// Where the erased cells of a stripe are covered, the cells that are held determine them, for every geometry within the
/// limits. It does nothing.
///
/// So restoring is a function of the held cells, although a codeword is defined by equations: whoever fills in the erased
/// cells, by whatever way, has the one stripe that was lost as soon as all equations hold.
pub fn restoring_laws()
    // two codewords with the same held cells are one
    ensures determined { (g : Geometry) (erased : CellSet) (a b : Stripe) → IsWithinLimits g →
        IsCovered g erased →
        IsStripeOf g a → IsWellFormed a → IsCodeword g a →
        IsStripeOf g b → IsWellFormed b → IsCodeword g b → SameHeld g erased a b → a ≡ b }
{}
