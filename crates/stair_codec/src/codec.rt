ghost use Rattle.std.specs.Prelude.{◌≡◌, IfOk};
ghost use Rattle.stair_codec.specs.Choice.{IsChosen, IsCostOf};

use crate::choice::{By, Encoder, fewest};
use crate::costs::{downstairs_steps, upstairs_steps};
use stair_base::{CellSet, Geometry, NotCovered, SECTOR, Stripe, StripeCode};
use stair_canon::Canon;
use stair_down::encode_downstairs;
use stair_gf::Steps;
use stair_std::{Generator, encode_standard};
use stair_up::{decode_upstairs, encode_upstairs};
use std::alloc::{AllocError, Global};
use std::marker::Model;
use std::sync::ledger::Ledger;

/// The code of a geometry by one of the three encoders.
///
/// The stripes that it encodes are the same by each of them; the encoder decides the steps alone. A stripe is updated by the
/// coefficients of its parities, and erased cells are restored by upstairs decoding.
#[derive(Drop)]
pub struct Codec {
    canon: Canon,
    generator: Generator,
    encoder: Encoder,
}

impl Model for Codec {
    ghost use Rattle.stair_codec.specs.Choice.{ChosenCode};
    ghost use Rattle.stair_codec.specs.Kept.{shown, IsKept};

    ghost Value = { ChosenCode };

    ghost view = { shown };

    ghost invariant = { IsKept };
}

impl Codec {
    /// The code of this geometry, which encodes as `by` says.
    ///
    /// The error comes only for lack of memory. All memory that later calls use is taken here: that of a canonical stripe,
    /// and, for every choice of encoder, that of a [`Generator`], by which stripes are updated.
    pub fn new(alloc: Global, geometry: &Geometry, by: By) -> Result<Codec, AllocError>
        ensures geometry { IfOk result (λ codec. codec.geometry ≡ geometry.now) }
        ensures chosen { IfOk result (λ codec. IsChosen by geometry.now codec.encoder) }
        ensures cost { IfOk result (λ codec. IsCostOf codec.encoder geometry.now codec.cost) }
    {
        let canon = Canon::new(alloc, geometry)?;
        let generator = Generator::new(alloc, geometry)?;
        let encoder = chosen(by, geometry, &generator);
        Ok(Codec {
            canon,
            generator,
            encoder,
        })
    }

    /// The steps in which it encodes a stripe.
    pub fn cost(&self) -> u64
        ensures value { result ≡ self.now.cost }
        ensures of_encoder { IsCostOf self.now.encoder self.now.geometry result }
    {
        match self.encoder {
            Encoder::Standard => self.generator.cost(),
            Encoder::Upstairs => upstairs_steps(&self.canon.geometry()),
            Encoder::Downstairs => downstairs_steps(&self.canon.geometry()),
        }
    }
}

impl StripeCode for Codec {
    ghost shape = { λ c. c.geometry };

    ghost cost = { λ c. c.cost };

    fn geometry(&self) -> Geometry {
        self.canon.geometry()
    }

    fn encode<L: Ledger>(&mut self, stripe: &mut Stripe, steps: &mut Steps<L>) {
        match self.encoder {
            Encoder::Standard => encode_standard(&self.generator, stripe, steps),
            Encoder::Upstairs => encode_upstairs(&mut self.canon, stripe, steps),
            Encoder::Downstairs => encode_downstairs(&mut self.canon, stripe, steps),
        }
    }

    fn dependents(&self, row: u8, slot: u8) -> CellSet {
        self.generator.dependents(row, slot)
    }

    fn update<L: Ledger>(
        &mut self,
        stripe: &mut Stripe,
        row: u8,
        slot: u8,
        from: &[u8; SECTOR],
        steps: &mut Steps<L>,
    ) {
        self.generator.update(stripe, row, slot, from, steps);
    }

    fn restore(&mut self, stripe: &mut Stripe, erased: &CellSet) -> Result<(), NotCovered> {
        decode_upstairs(&mut self.canon, stripe, erased)
    }
}

/// The encoder that was asked for; the standard one encodes by this generator.
fn chosen(by: By, geometry: &Geometry, generator: &Generator) -> Encoder
    requires { generator.now.geometry ≡ geometry.now }
    ensures { IsChosen by geometry.now result }
{
    match by {
        By::Standard => Encoder::Standard,
        By::Upstairs => Encoder::Upstairs,
        By::Downstairs => Encoder::Downstairs,
        By::Fewest => fewest(
            generator.cost(),
            upstairs_steps(geometry),
            downstairs_steps(geometry),
        ),
    }
}
