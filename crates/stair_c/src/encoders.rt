ghost use Rattle.std.specs.Prelude.{◌≡◌, IfOk};
ghost use Rattle.stair_model.specs.Encoding.{IsEncodedFrom};
ghost use Rattle.stair_model.specs.Stripe.{IsStripeOf};
ghost use Rattle.stair_c.specs.Encoders.{shape};

use crate::standard::standard_steps;
use stair_base::{Geometry, Stripe};
use stair_canon::Canon;
use stair_codec::{By, Encoder, downstairs_steps, fewest, upstairs_steps};
use stair_down::encode_downstairs;
use stair_gf::Steps;
use stair_std::{Generator, encode_standard};
use stair_up::encode_upstairs;
use std::alloc::{AllocError, Global};
use std::marker::Brand;
use std::sync::ledger::{Blank, Ledger};

/// An encoder with what it needs for stripes of one geometry.
///
/// A [`Generator`] is made for standard encoding only: making one takes as long as encoding some stripes.
#[derive(Drop)]
pub(crate) enum Prepared {
    Standard(Generator),
    Upstairs(Canon),
    Downstairs(Canon),
}

/// Prepares the encoder that is asked for. The error comes only for lack of memory.
pub(crate) fn prepare(alloc: Global, geometry: &Geometry, by: By) -> Result<Prepared, AllocError>
    ensures { IfOk result (λ prepared. shape prepared ≡ geometry.now) }
{
    match by {
        By::Standard => Ok(Prepared::Standard(Generator::new(alloc, geometry)?)),
        By::Upstairs => Ok(Prepared::Upstairs(Canon::new(alloc, geometry)?)),
        By::Downstairs => Ok(Prepared::Downstairs(Canon::new(alloc, geometry)?)),
        By::Fewest => prepare_fewest(alloc, geometry),
    }
}

/// Prepares the encoder that takes the fewest steps. The canonical stripe that counts them is the one that encodes.
fn prepare_fewest(alloc: Global, geometry: &Geometry) -> Result<Prepared, AllocError>
    ensures { IfOk result (λ prepared. shape prepared ≡ geometry.now) }
{
    let mut canon = Canon::new(alloc, geometry)?;
    let mut units = Stripe::new(alloc, geometry)?;
    let standard = standard_steps::<Brand>(Blank::new(1), &mut canon, &mut units);
    match fewest(
        standard,
        upstairs_steps(geometry),
        downstairs_steps(geometry),
    ) {
        Encoder::Standard => Ok(Prepared::Standard(Generator::new(alloc, geometry)?)),
        Encoder::Upstairs => Ok(Prepared::Upstairs(canon)),
        Encoder::Downstairs => Ok(Prepared::Downstairs(canon)),
    }
}

/// Fills in the parities of a stripe of the encoder's geometry; the data cells are kept.
pub(crate) fn encode<L: Ledger>(prepared: &mut Prepared, stripe: &mut Stripe, steps: &mut Steps<L>)
    requires { IsStripeOf (shape prepared.old) stripe.old }
    ensures encoded { IsEncodedFrom (shape prepared.old) stripe.old stripe.new }
    ensures same_shape { shape prepared.new ≡ shape prepared.old }
{
    match prepared {
        Prepared::Standard(generator) => encode_standard(generator, stripe, steps),
        Prepared::Upstairs(canon) => encode_upstairs(canon, stripe, steps),
        Prepared::Downstairs(canon) => encode_downstairs(canon, stripe, steps),
    }
}
