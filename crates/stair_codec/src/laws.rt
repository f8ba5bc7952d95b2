//! The laws of choosing an encoder.

ghost use Rattle.std.specs.Prelude.{◌≡◌, ◌≤◌, ℕ};
ghost use Rattle.stair_model.specs.Geometry.{Geometry, IsWithinLimits};
ghost use Rattle.stair_codec.specs.Choice.{IsChosen, IsCostOf, IsFewest};
ghost use Rattle.stair_codec.specs.declared.choice.By.{By};
ghost use Rattle.stair_codec.specs.declared.choice.Encoder.{Encoder};

/// Whatever is asked for, an encoder is chosen and one alone; each encoder takes one number of steps; and none takes fewer
/// than the one with the fewest. It does nothing.
pub fn choice_laws()
    ensures encoder { (by : By) (g : Geometry) → IsWithinLimits g →
        (encoder : Encoder) × IsChosen by g encoder }
    ensures one_encoder { (by : By) (g : Geometry) (a b : Encoder) → IsWithinLimits g →
        IsChosen by g a → IsChosen by g b → a ≡ b }
    ensures cost { (encoder : Encoder) (g : Geometry) → IsWithinLimits g →
        (cost : ℕ) × IsCostOf encoder g cost }
    ensures one_cost { (encoder : Encoder) (g : Geometry) (a b : ℕ) → IsWithinLimits g →
        IsCostOf encoder g a → IsCostOf encoder g b → a ≡ b }
    ensures fewest { (g : Geometry) (a b : Encoder) (x y : ℕ) → IsWithinLimits g →
        IsFewest g a → IsCostOf a g x → IsCostOf b g y → x ≤ y }
{}
