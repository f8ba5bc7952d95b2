ghost use Rattle.std.specs.Prelude.{ℕ};
ghost use Rattle.stair_model.specs.Geometry.{IsWithinLimits};
ghost use Rattle.stair_model.specs.Stripe.{IsStripeOf, IsWellFormed};
ghost use Rattle.stair_command.specs.Answer.{bytes_needed};
ghost use Rattle.stair_command.specs.Fault.{status_of};
ghost use Rattle.stair_command.specs.Executes.{Executes};
ghost use Rattle.stair_command.specs.Outside.{outside, source_view, views};
ghost use Rattle.stair_command.specs.Program.{Over};
ghost use Rattle.stair_engine.specs.Programs.{input_program, stripe_program};
ghost use Rattle.stair_command.specs.Taking.{TakesWhole};
ghost use Rattle.stair_engine.specs.Taking.{IsMapAndCells};
ghost use Rattle.stair_conf.specs.declared.job.StripeCommand.TheVariants.{Restore};

use crate::cells::{cell_bytes, put_stripe, take_stripe};
use crate::map::take_map;
use stair_base::{CellSet, Geometry, Stripe, StripeCode, first_broken};
use stair_codec::{By, Codec};
use stair_command::{Fault, Intake, Status};
use stair_rack::{Sink, Source};
use std::alloc::Global;

/// Takes a map and the cells of a stripe row by row, and puts out the codeword that has those cells of it that are held.
pub(crate) fn restore<S: Source, K: Sink>(
    alloc: Global,
    geometry: &Geometry,
    input: &mut S,
    output: &mut K,
) -> Result<Status, Fault>
    ensures { (counter : ℕ) → Executes (views S.Source K.Sink)
        (stripe_program Restore geometry.now) (Over (status_of result))
        (outside input.old output.old counter) (outside input.new output.new counter) }
{
    let mut stripe = Stripe::new(alloc, geometry)?;
    let mut codec = Codec::new(alloc, geometry, By::Upstairs)?;
    restore_by(&mut codec, &mut stripe, input, output)
}

/// Takes a map and the cells of a stripe of the code's geometry, restores it by this code, and puts out the codeword that has
/// the cells that are held.
fn restore_by<C: StripeCode, S: Source, K: Sink>(
    code: &mut C,
    stripe: &mut Stripe,
    input: &mut S,
    output: &mut K,
) -> Result<Status, Fault>
    requires of { IsStripeOf (C.shape code.old) stripe.old }
    requires well_formed { IsWellFormed stripe.old }
    ensures { (counter : ℕ) → Executes (views S.Source K.Sink)
        (input_program Restore (C.shape code.old)) (Over (status_of result))
        (outside input.old output.old counter) (outside input.new output.new counter) }
{
    let geometry = code.geometry();
    let erased = take_input(&geometry, stripe, input)?;
    if code.restore(stripe, &erased).is_err() {
        return Ok(Status::Lost {
            stripe: 0,
            counts: erased.counts(),
            n: geometry.n(),
        });
    }
    if first_broken(&geometry, stripe).is_some() {
        return Ok(Status::NoCodeword);
    }
    put_stripe(&geometry, stripe, output)?;
    Ok(Status::Done)
}

/// Takes exactly a map and the cells of a stripe, looks for the end after them, and gives the cells that are erased.
fn take_input<S: Source>(
    geometry: &Geometry,
    stripe: &mut Stripe,
    input: &mut S,
) -> Result<CellSet, Fault>
    requires of { IsStripeOf geometry.now stripe.old }
    requires well_formed { IsWellFormed stripe.old }
    ensures limits { IsWithinLimits geometry.now }
    ensures takes { TakesWhole (source_view S.Source)
        (bytes_needed Restore geometry.now) result (IsMapAndCells geometry.now stripe.new)
        input.old input.new }
    ensures of { IsStripeOf geometry.now stripe.new }
    ensures well_formed { IsWellFormed stripe.new }
{
    let cells = u64::from(geometry.r()) * u64::from(geometry.n());
    let mut intake = Intake::new(cells + cell_bytes(geometry));
    let erased = take_map(geometry, &mut intake, input)?;
    take_stripe(geometry, stripe, &mut intake, input)?;
    intake.end(input)?;
    Ok(erased)
}
