ghost use Rattle.std.specs.Prelude.{◌≡◌, ◌+◌};
ghost use Rattle.stair_model.specs.Costs.{IsStandardCost};
ghost use Rattle.stair_model.specs.Encoding.{IsEncodedFrom};
ghost use Rattle.stair_model.specs.Stripe.{IsStripeOf};

use crate::cells::Part;
use crate::generator::Generator;
use stair_base::Stripe;
use stair_gf::Steps;
use std::sync::ledger::Ledger;

/// Fills in the row parities and the global parities, so that the stripe is the codeword of its data cells.
///
/// The data cells are kept, and what the other cells held before doesn't count. Each parity becomes the sum of its non-zero
/// coefficients times their blocks (standard encoding of Li and Lee, STAIR Codes, FAST 2014), a step each: as many as
/// [`Generator::cost`] answers. It takes no memory.
pub fn encode_standard<L: Ledger>(generator: &Generator, stripe: &mut Stripe, steps: &mut Steps<L>)
    requires { IsStripeOf generator.now.geometry stripe.old }
    ensures encoded { IsEncodedFrom generator.now.geometry stripe.old stripe.new }
    ensures cost { steps.new ≡ steps.old + generator.now.cost }
    ensures standard { IsStandardCost generator.now.geometry generator.now.cost }
{
    let coefficients = &generator.coefficients;
    let geometry = coefficients.geometry();
    for row in 0..geometry.r() {
        for slot in 0..geometry.n() {
            if let Part::Parity(parity) = coefficients.part(row, slot) {
                let sum = coefficients.parity(parity, stripe, steps);
                stripe.put(row, slot, &sum);
            }
        }
    }
}
