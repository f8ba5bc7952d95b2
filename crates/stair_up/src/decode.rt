ghost use Rattle.std.specs.Prelude.{◌≡◌, ◌<◌, ◌↔◌, IfErr, IfOk, IsOk};
ghost use Rattle.stair_model.specs.CellSet.{IsInStripe};
ghost use Rattle.stair_model.specs.Coverage.{IsCovered};
ghost use Rattle.stair_model.specs.Geometry.{IsWithinLimits};
ghost use Rattle.stair_model.specs.Restoring.{IsRestored, SameHeld};
ghost use Rattle.stair_model.specs.Stripe.{IsStripeOf, IsWellFormed};
ghost use Rattle.stair_up.specs.SolveSteps.{FindsStripe};

use crate::solve::solve_rows_and_rest;
use stair_base::{CellSet, NotCovered, Stripe, covered};
use stair_canon::Canon;
use stair_gf::Steps;
use std::marker::Brand;
use std::sync::ledger::{Blank, Ledger};

/// Restores the erased cells of a stripe of the canonical stripe's geometry: those of each row with at most m of them by its
/// own parities, and the rest by upstairs decoding (Li and Lee, STAIR Codes, FAST 2014).
///
/// What stands in the erased cells before doesn't matter. After Ok the stripe is the codeword that has the cells that
/// weren't erased, if there is one; these stay as they were in any case. The error comes exactly where the erased cells
/// aren't covered, and the stripe is then as it was. The canonical stripe is room to work in: what it held before doesn't
/// matter, and what it holds afterwards is of no use.
pub fn decode_upstairs(
    canon: &mut Canon,
    stripe: &mut Stripe,
    erased: &CellSet,
) -> Result<(), NotCovered>
    requires of { IsStripeOf canon.old.geometry stripe.old }
    requires cells { IsInStripe canon.old.geometry erased.now }
    ensures covered { IsOk result ↔ IsCovered canon.old.geometry erased.now }
    ensures unchanged { IfErr result (λ _. stripe.new ≡ stripe.old) }
    ensures held { SameHeld canon.old.geometry erased.now stripe.new stripe.old }
    ensures restored { IfOk result (λ _. IsRestored canon.old.geometry erased.now stripe.old
        stripe.new) }
    ensures shape { IsStripeOf canon.old.geometry stripe.new }
    ensures well_formed { IfOk result (λ _. IsWellFormed stripe.new) }
    ensures geometry { canon.new.geometry ≡ canon.old.geometry }
{
    if !covered(&canon.geometry(), erased) {
        return Err(NotCovered);
    }
    solve_uncounted::<Brand>(Blank::new(1), canon, stripe, erased);
    Ok(())
}

/// Solves the erased cells on a ledger of its own.
fn solve_uncounted<L: Ledger>(
    blank: Blank,
    canon: &mut Canon,
    stripe: &mut Stripe,
    erased: &CellSet,
)
    requires name { blank.name ≡ L.name }
    requires parts { blank.parts ≡ L.parts }
    requires some { 0 < L.parts }
    requires stripe { IsStripeOf canon.old.geometry stripe.old }
    requires cells { IsInStripe canon.old.geometry erased.now }
    requires covered { IsCovered canon.old.geometry erased.now }
    ensures found { FindsStripe canon.old.geometry erased.now stripe.old stripe.new }
    ensures held { SameHeld canon.old.geometry erased.now stripe.new stripe.old }
    ensures shape { IsStripeOf canon.old.geometry stripe.new }
    ensures well_formed { IsWellFormed stripe.new }
    ensures geometry { canon.new.geometry ≡ canon.old.geometry }
    ensures limits { IsWithinLimits canon.old.geometry }
{
    let mut steps = Steps::<L>::new(blank);
    solve_rows_and_rest(canon, stripe, erased, &mut steps);
}
