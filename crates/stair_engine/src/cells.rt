ghost use Rattle.std.specs.Prelude.{◌≡◌, ◌+◌, ◌≤◌, OnOk, IfErr};
ghost use Rattle.std.specs.List.{concat};
ghost use Rattle.stair_model.specs.Geometry.{IsWithinLimits};
ghost use Rattle.stair_model.specs.Stripe.{IsStripeOf, IsWellFormed};
ghost use Rattle.stair_command.specs.Answer.{cell_bytes as cell_bytes_of};
ghost use Rattle.stair_command.specs.Outside.{sink_view, source_view};
ghost use Rattle.stair_command.specs.Streams.{PutsAll};
ghost use Rattle.stair_command.specs.Taking.{CutsShort, TakesBytes};

use stair_base::{Geometry, SECTOR, Stripe};
use stair_command::{Fault, Intake, put_all};
use stair_rack::{Sink, Source};

/// The bytes of the cells of a stripe.
pub(crate) fn cell_bytes(geometry: &Geometry) -> u64
    ensures value { result ≡ cell_bytes_of geometry.now }
    ensures limits { IsWithinLimits geometry.now }
{
    u64::from(geometry.r()) * u64::from(geometry.n()) * SECTOR as u64
}

/// Takes the cells of a stripe, row by row.
pub(crate) fn take_stripe<S: Source>(
    geometry: &Geometry,
    stripe: &mut Stripe,
    intake: &mut Intake,
    input: &mut S,
) -> Result<(), Fault>
    requires of { IsStripeOf geometry.now stripe.old }
    requires well_formed { IsWellFormed stripe.old }
    requires room { intake.old.took + cell_bytes_of geometry.now ≤ intake.old.needed }
    ensures ok { OnOk result (TakesBytes (source_view S.Source)
        intake.old intake.new (concat stripe.new.cells) input.old input.new) }
    ensures cut { IfErr result (CutsShort (source_view S.Source)
        intake.old input.old input.new) }
    ensures of { IsStripeOf geometry.now stripe.new }
    ensures well_formed { IsWellFormed stripe.new }
{
    let mut sector = [0; SECTOR];
    for row in 0..geometry.r() {
        for slot in 0..geometry.n() {
            intake.fill(input, &mut sector)?;
            stripe.put(row, slot, &sector);
        }
    }
    Ok(())
}

/// Puts out the cells of a stripe, row by row.
pub(crate) fn put_stripe<K: Sink>(
    geometry: &Geometry,
    stripe: &Stripe,
    output: &mut K,
) -> Result<(), Fault>
    requires of { IsStripeOf geometry.now stripe.now }
    requires well_formed { IsWellFormed stripe.now }
    ensures puts { PutsAll (sink_view K.Sink) result (concat stripe.now.cells)
        output.old output.new }
    ensures failed { IfErr result (λ fault. fault ≡ Fault.Output) }
{
    for row in 0..geometry.r() {
        for slot in 0..geometry.n() {
            put_all(output, stripe.cell(row, slot))?;
        }
    }
    Ok(())
}
