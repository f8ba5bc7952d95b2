ghost use Rattle.stair_model.specs.Geometry.{IsWithinLimits};
ghost use Rattle.stair_model.specs.Stripe.{IsStripeOf, IsWellFormed};
ghost use Rattle.stair_command.specs.Answer.{block_bytes as block_bytes_of};
ghost use Rattle.stair_command.specs.Encode.{IsCostOfMethod};
ghost use Rattle.stair_command.specs.Fault.{status_of};
ghost use Rattle.stair_command.specs.Executes.{Executes};
ghost use Rattle.stair_command.specs.Outside.{outside, source_view, views};
ghost use Rattle.stair_command.specs.Program.{Over};
ghost use Rattle.stair_engine.specs.Programs.{input_program, stripe_program};
ghost use Rattle.stair_command.specs.Taking.{TakesWhole};
ghost use Rattle.stair_engine.specs.Taking.{HoldsInput};
ghost use Rattle.stair_conf.specs.declared.job.StripeCommand.TheVariants.{Encode};

use crate::blocks::{block_bytes, take_blocks};
use crate::cells::put_stripe;
use crate::task::by_of;
use stair_base::{Geometry, Stripe, StripeCode};
use stair_codec::Codec;
use stair_command::{Fault, Intake, Status};
use stair_conf::Method;
use stair_gf::Steps;
use stair_rack::{Sink, Source};
use std::alloc::Global;
use std::sync::ledger::Ledger;

/// Takes the blocks of a stripe in their order, and puts out the cells of the encoded stripe row by row.
pub(crate) fn encode<S: Source, K: Sink, L: Ledger>(
    alloc: Global,
    method: Method,
    geometry: &Geometry,
    input: &mut S,
    output: &mut K,
    steps: &mut Steps<L>,
) -> Result<Status, Fault>
    ensures { Executes (views S.Source K.Sink)
        (stripe_program (Encode method) geometry.now) (Over (status_of result))
        (outside input.old output.old steps.old) (outside input.new output.new steps.new) }
{
    let mut stripe = Stripe::new(alloc, geometry)?;
    let mut codec = Codec::new(alloc, geometry, by_of(method))?;
    encode_by(&mut codec, method, &mut stripe, input, output, steps)
}

/// Takes the blocks of a stripe into a stripe of the code's geometry, encodes it by this code, and puts out its cells.
fn encode_by<C: StripeCode, S: Source, K: Sink, L: Ledger>(
    code: &mut C,
    method: Method,
    stripe: &mut Stripe,
    input: &mut S,
    output: &mut K,
    steps: &mut Steps<L>,
) -> Result<Status, Fault>
    requires cost { IsCostOfMethod method (C.shape code.old) (C.cost code.old) }
    requires of { IsStripeOf (C.shape code.old) stripe.old }
    requires well_formed { IsWellFormed stripe.old }
    ensures { Executes (views S.Source K.Sink)
        (input_program (Encode method) (C.shape code.old)) (Over (status_of result))
        (outside input.old output.old steps.old) (outside input.new output.new steps.new) }
{
    let geometry = code.geometry();
    take_input(&geometry, stripe, input)?;
    code.encode(stripe, steps);
    put_stripe(&geometry, stripe, output)?;
    Ok(Status::Done)
}

/// Takes exactly the blocks of a stripe, and looks for the end after them.
fn take_input<S: Source>(
    geometry: &Geometry,
    stripe: &mut Stripe,
    input: &mut S,
) -> Result<(), Fault>
    requires of { IsStripeOf geometry.now stripe.old }
    requires well_formed { IsWellFormed stripe.old }
    ensures limits { IsWithinLimits geometry.now }
    ensures takes { TakesWhole (source_view S.Source) (block_bytes_of geometry.now)
        result (λ done. HoldsInput geometry.now stripe.new) input.old input.new }
    ensures of { IsStripeOf geometry.now stripe.new }
    ensures well_formed { IsWellFormed stripe.new }
{
    let mut intake = Intake::new(block_bytes(geometry));
    take_blocks(geometry, stripe, &mut intake, input)?;
    intake.end(input)
}
