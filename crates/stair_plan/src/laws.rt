//! The laws of penalties and of plans.

ghost use Rattle.std.specs.Prelude.{◌≡◌, ◌<◌, ℕ};
ghost use Rattle.stair_model.specs.Costs.{IsStandardCost, nonzero_parities, unit_blocks};
ghost use Rattle.stair_model.specs.Encoding.{IsEncodingOf};
ghost use Rattle.stair_model.specs.Geometry.{Geometry, IsWithinLimits, data_cells};
ghost use Rattle.stair_model.specs.Stripe.{Stripe};
ghost use Rattle.stair_model.specs.Sum.{sum_below};
ghost use Rattle.stair_codec.specs.Choice.{IsLeast};
ghost use Rattle.stair_codec.specs.declared.choice.Encoder.{Encoder};
ghost use Rattle.stair_plan.specs.Penalty.{IsPenalty};
ghost use Rattle.stair_plan.specs.Plan.{IsPlanOf};
ghost use Rattle.stair_plan.specs.PlanText.{fewest_of};
ghost use Rattle.stair_plan.specs.declared.plans.Plan.{Plan};

/// The penalty of each data cell, for every geometry within the limits. It does nothing.
///
/// It is the number of parities of which standard encoding takes a step for the cell, so that all of them together are the
/// steps of standard encoding.
pub fn penalty_laws()
    ensures exists { (g : Geometry) (d : ℕ) → IsWithinLimits g → d < data_cells g →
        (penalty : ℕ) × IsPenalty g d penalty }
    ensures unique { (g : Geometry) (d a b : ℕ) → IsPenalty g d a → IsPenalty g d b → a ≡ b }
    ensures parities { (g : Geometry) (d penalty : ℕ) (encoded : Stripe) → IsWithinLimits g →
        d < data_cells g → IsPenalty g d penalty → IsEncodingOf g (unit_blocks g d) encoded →
        penalty ≡ nonzero_parities g encoded }
    ensures sum { (g : Geometry) (penalty : ℕ → ℕ) → IsWithinLimits g →
        ((d : ℕ) → d < data_cells g → IsPenalty g d (penalty d)) →
        IsStandardCost g (sum_below (data_cells g) penalty) }
{}

/// Each geometry within the limits has one plan. It does nothing.
pub fn plan_laws()
    ensures exists { (g : Geometry) → IsWithinLimits g → (plan : Plan) × IsPlanOf g plan }
    ensures unique { (g : Geometry) (a b : Plan) → IsWithinLimits g →
        IsPlanOf g a → IsPlanOf g b → a ≡ b }
    // the steps of standard encoding are all penalties together
    ensures sum { (g : Geometry) (plan : Plan) (penalty : ℕ → ℕ) → IsWithinLimits g →
        IsPlanOf g plan → ((d : ℕ) → d < data_cells g → IsPenalty g d (penalty d)) →
        sum_below (data_cells g) penalty ≡ plan.standard }
    // the encoder that its text names is the one with the fewest steps, and no other is
    ensures fewest { (standard up down : ℕ) → IsLeast standard up down (fewest_of standard up down) }
    ensures one_fewest { (standard up down : ℕ) (encoder : Encoder) →
        IsLeast standard up down encoder → encoder ≡ fewest_of standard up down }
{}
