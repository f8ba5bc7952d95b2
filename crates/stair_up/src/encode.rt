ghost use Rattle.std.specs.Prelude.{◌≡◌, ◌+◌};
ghost use Rattle.stair_model.specs.Costs.{upstairs_cost};
ghost use Rattle.stair_model.specs.Encoding.{IsEncodedFrom};
ghost use Rattle.stair_model.specs.Stripe.{IsStripeOf};

use crate::solve::solve_erased;
use stair_base::Stripe;
use stair_canon::Canon;
use stair_gf::Steps;
use std::sync::ledger::Ledger;

/// Encodes a stripe of the canonical stripe's geometry in place, by upstairs decoding of its row parities and global
/// parities (Li and Lee, STAIR Codes, FAST 2014).
///
/// What stands in the parities before doesn't matter. Afterwards the stripe is the codeword with its blocks. It takes
/// (n-m)(m·r+s) steps for the parities and r(n-m)·e_max for virtual symbols. The canonical stripe is room to work in: what
/// it held before doesn't matter, and what it holds afterwards is of no use.
pub fn encode_upstairs<L: Ledger>(canon: &mut Canon, stripe: &mut Stripe, steps: &mut Steps<L>)
    requires { IsStripeOf canon.old.geometry stripe.old }
    ensures encoded { IsEncodedFrom canon.old.geometry stripe.old stripe.new }
    ensures cost { steps.new ≡ steps.old + upstairs_cost canon.old.geometry }
    ensures geometry { canon.new.geometry ≡ canon.old.geometry }
{
    let order = *canon.order();
    solve_erased(canon, stripe, &order, steps);
}
