//! The laws of the limits of a geometry.

ghost use Rattle.std.specs.Prelude.{◌≡◌, ℕ, ◌*◌, ◌^◌, ◌<◌, ◌≤◌, ◌⊎◌, ◌↔◌, IsTrue};
ghost use Rattle.stair_model.specs.Geometry.{Geometry, HasDevices, HasRows, HasSize, IsFirstBrokenLimit, IsSmall, IsWithinLimits, block_count, is_small, sectors_needed};

/// A geometry is within all limits, or there is a first one that it breaks, and one alone.
///
/// Where the sectors of a device can be numbered in 32 bits, so can the stripes; a small geometry keeps the eighth limit
/// that there was before there were large ones, and that alone. It has fewer than 2^37 blocks. It does nothing.
pub fn limit_laws()
    ensures some { (g : Geometry) →
        IsWithinLimits g ⊎ ((limit : ℕ) × IsFirstBrokenLimit g limit) }
    ensures not_both { (g : Geometry) (limit : ℕ) → IsFirstBrokenLimit g limit →
        ¬ IsWithinLimits g }
    ensures one { (g : Geometry) (a b : ℕ) →
        IsFirstBrokenLimit g a → IsFirstBrokenLimit g b → a ≡ b }
    ensures size { (g : Geometry) → HasDevices g → HasRows g → 1 ≤ g.stripes →
        sectors_needed g ≤ 4294967295 → HasSize g }
    ensures usual { (g : Geometry) → HasDevices g → HasRows g → ((HasSize g × IsSmall g)
        ↔ ((1 ≤ g.stripes) × (g.stripes ≤ 65536) × (g.n * g.r * g.stripes ≤ 4194304))) }
    ensures small { (g : Geometry) → IsTrue (is_small g) ↔ IsSmall g }
    ensures few { (g : Geometry) → IsWithinLimits g → block_count g < 2 ^ 37 }
{}
