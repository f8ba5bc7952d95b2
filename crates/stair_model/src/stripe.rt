//! The laws of a stripe's cells.

ghost use Rattle.std.specs.Prelude.{◌≡◌, ℕ, ◌<◌, List, replicate};
ghost use Rattle.stair_model.specs.Geometry.{Geometry};
ghost use Rattle.stair_model.specs.Stripe.{Stripe, IsWellFormed, SECTOR, cell, with_cell, zero_stripe};

/// What each cell holds after one was changed, and in the zero stripe. It does nothing.
pub fn stripe_laws()
    ensures changed { (s : Stripe) (row chunk : ℕ) (bytes : List ℕ) →
        IsWellFormed s → row < s.rows → chunk < s.chunks →
        cell (with_cell s row chunk bytes) row chunk ≡ bytes }
    ensures others_stay { (s : Stripe) (i j row chunk : ℕ) (bytes : List ℕ) →
        j < s.chunks → chunk < s.chunks → ¬ ((i ≡ row) × (j ≡ chunk)) →
        cell (with_cell s row chunk bytes) i j ≡ cell s i j }
    ensures zero { (g : Geometry) (i j : ℕ) → i < g.r → j < g.n →
        cell (zero_stripe g) i j ≡ replicate SECTOR 0 }
{}
