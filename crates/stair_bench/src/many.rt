//! Work on many stripes in turn, so that each comes from memory.

ghost use Rattle.std.specs.Prelude.{◌≡◌, ◌<◌, IfOk, All, length};
ghost use Rattle.stair_model.specs.CellSet.{IsInStripe};
ghost use Rattle.stair_model.specs.Stripe.{IsStripeOf};

use crate::check::check_of_stripe;
use crate::encoding::varied_stripe;
use crate::restoring::{erase, worst_pattern};
use stair_base::{CellSet, Geometry, Stripe, StripeCode};
use stair_codec::{By, Codec};
use stair_gf::Steps;
use std::alloc::{AllocError, Global};
use std::sync::ledger::{Blank, Ledger};

// As many as the C library is timed with.
const STRIPES: usize = 64;

/// Encodes the next of 64 stripes in each round. Returns a check of all cells of the first one.
pub(crate) fn check_of_encoding_many<L: Ledger>(
    alloc: Global,
    by: By,
    geometry: &Geometry,
    rounds: u32,
    blank: Blank,
) -> Result<u64, AllocError>
    requires name { blank.name ≡ L.name }
    requires parts { blank.parts ≡ L.parts }
    requires some { 0 < L.parts }
{
    let mut stripes = varied_stripes(alloc, geometry)?;
    let mut code = Codec::new(alloc, geometry, by)?;
    encode_in_turn::<L, Codec>(geometry, &mut code, &mut stripes, rounds, blank);
    Ok(check_of_stripe(geometry, &stripes[0]))
}

/// Restores the next of 64 encoded stripes in each round, from the worst pattern. Returns a check of all cells of the first one.
pub(crate) fn check_of_restoring_many<L: Ledger>(
    alloc: Global,
    geometry: &Geometry,
    rounds: u32,
    blank: Blank,
) -> Result<u64, AllocError>
    requires some_devices { 0 < geometry.now.n }
    requires name { blank.name ≡ L.name }
    requires parts { blank.parts ≡ L.parts }
    requires some { 0 < L.parts }
{
    let pattern = worst_pattern(geometry, 0);
    let mut stripes = varied_stripes(alloc, geometry)?;
    let mut code = Codec::new(alloc, geometry, By::Upstairs)?;
    restore_in_turn::<L, Codec>(geometry, &mut code, &mut stripes, &pattern, rounds, blank);
    Ok(check_of_stripe(geometry, &stripes[0]))
}

/// Erases the cells of this pattern in the first of these stripes.
fn erase_first(geometry: &Geometry, pattern: &CellSet, stripes: &mut [Stripe])
    requires stripes { 0 < length stripes.old }
    requires of { All (IsStripeOf geometry.now) stripes.old }
    ensures count { length stripes.new ≡ length stripes.old }
    ensures of { All (IsStripeOf geometry.now) stripes.new }
{
    erase(geometry, pattern, &mut stripes[0]);
}

/// Returns 64 stripes that are alike.
fn varied_stripes(alloc: Global, geometry: &Geometry) -> Result<Vec<Stripe>, AllocError>
    ensures count { IfOk result (λ stripes. length stripes.items ≡ STRIPES) }
    ensures of { IfOk result (λ stripes. All (IsStripeOf geometry.now) stripes.items) }
{
    let mut stripes = Vec::with_capacity(alloc, STRIPES)?;
    for _made in 0..STRIPES {
        stripes.push(varied_stripe(alloc, geometry)?)?;
    }
    Ok(stripes)
}

/// Encodes the next of these stripes in each round.
fn encode_in_turn<L: Ledger, C: StripeCode>(
    geometry: &Geometry,
    code: &mut C,
    stripes: &mut [Stripe],
    rounds: u32,
    blank: Blank,
)
    requires name { blank.name ≡ L.name }
    requires parts { blank.parts ≡ L.parts }
    requires some { 0 < L.parts }
    requires shape { C.shape code.old ≡ geometry.now }
    requires stripes { 0 < length stripes.old }
    requires of { All (IsStripeOf geometry.now) stripes.old }
    ensures shape { C.shape code.new ≡ geometry.now }
    ensures count { length stripes.new ≡ length stripes.old }
    ensures of { All (IsStripeOf geometry.now) stripes.new }
{
    let mut steps = Steps::<L>::new(blank);
    for round in 0..rounds {
        let number = round as usize % stripes.len();
        code.encode(&mut stripes[number], &mut steps);
    }
}

/// Encodes these stripes, and restores the next of them in each round, the first one with these cells erased.
fn restore_in_turn<L: Ledger, C: StripeCode>(
    geometry: &Geometry,
    code: &mut C,
    stripes: &mut [Stripe],
    pattern: &CellSet,
    rounds: u32,
    blank: Blank,
)
    requires name { blank.name ≡ L.name }
    requires parts { blank.parts ≡ L.parts }
    requires some { 0 < L.parts }
    requires shape { C.shape code.old ≡ geometry.now }
    requires stripes { 0 < length stripes.old }
    requires of { All (IsStripeOf geometry.now) stripes.old }
    requires in_stripe { IsInStripe geometry.now pattern.now }
    ensures count { length stripes.new ≡ length stripes.old }
    ensures of { All (IsStripeOf geometry.now) stripes.new }
{
    encode_in_turn::<L, C>(geometry, code, stripes, STRIPES as u32, blank);
    erase_first(geometry, pattern, stripes);
    for round in 0..rounds {
        let number = round as usize % stripes.len();
        let _ = code.restore(&mut stripes[number], pattern);
    }
}
