ghost use Rattle.std.specs.Prelude.{ℕ};
ghost use Rattle.stair_model.specs.Geometry.{IsWithinLimits};
ghost use Rattle.stair_model.specs.Stripe.{IsStripeOf, IsWellFormed};
ghost use Rattle.stair_command.specs.Answer.{HasBytes, bytes_needed};
ghost use Rattle.stair_command.specs.Fault.{status_of};
ghost use Rattle.stair_command.specs.Executes.{Executes};
ghost use Rattle.stair_command.specs.Outside.{outside, source_view, views};
ghost use Rattle.stair_command.specs.Program.{Over};
ghost use Rattle.stair_engine.specs.Programs.{stripe_program};
ghost use Rattle.stair_command.specs.Taking.{TakesWhole};
ghost use Rattle.stair_conf.specs.declared.job.StripeCommand.TheVariants.{Check};

use crate::cells::{cell_bytes, take_stripe};
use stair_base::{Geometry, Stripe, first_broken};
use stair_command::{Fault, Intake, Status, put_all};
use stair_rack::{Sink, Source};
use std::alloc::Global;

/// Takes the cells of a stripe row by row, and tells whether they are a codeword.
pub(crate) fn check<S: Source, K: Sink>(
    alloc: Global,
    geometry: &Geometry,
    input: &mut S,
    output: &mut K,
) -> Result<Status, Fault>
    ensures { (counter : ℕ) → Executes (views S.Source K.Sink)
        (stripe_program Check geometry.now) (Over (status_of result))
        (outside input.old output.old counter) (outside input.new output.new counter) }
{
    let mut stripe = Stripe::new(alloc, geometry)?;
    take_input(geometry, &mut stripe, input)?;
    if let Some(broken) = first_broken(geometry, &stripe) {
        return Ok(Status::NotCodeword(broken));
    }
    put_all(output, b"codeword\n")?;
    Ok(Status::Done)
}

/// Takes exactly the cells of a stripe, and looks for the end after them.
fn take_input<S: Source>(
    geometry: &Geometry,
    stripe: &mut Stripe,
    input: &mut S,
) -> Result<(), Fault>
    requires of { IsStripeOf geometry.now stripe.old }
    requires well_formed { IsWellFormed stripe.old }
    ensures limits { IsWithinLimits geometry.now }
    ensures takes { TakesWhole (source_view S.Source)
        (bytes_needed Check geometry.now) result (λ done. HasBytes geometry.now stripe.new)
        input.old input.new }
    ensures of { IsStripeOf geometry.now stripe.new }
    ensures well_formed { IsWellFormed stripe.new }
{
    let mut intake = Intake::new(cell_bytes(geometry));
    take_stripe(geometry, stripe, &mut intake, input)?;
    intake.end(input)
}
