ghost use Rattle.std.specs.Prelude.{◌≡◌, ◌+◌, ◌≤◌, OnOk, IfErr};
ghost use Rattle.stair_model.specs.Geometry.{IsWithinLimits, data_cells};
ghost use Rattle.stair_model.specs.Stripe.{IsStripeOf, IsWellFormed};
ghost use Rattle.stair_command.specs.Answer.{block_bytes as block_bytes_of};
ghost use Rattle.stair_command.specs.Outside.{source_view};
ghost use Rattle.stair_command.specs.Taking.{CutsShort};
ghost use Rattle.stair_engine.specs.Taking.{TakesBlocksTo};

use stair_base::{Geometry, SECTOR, Stripe};
use stair_command::{Fault, Intake};
use stair_rack::Source;

/// The bytes of the blocks of a stripe.
pub(crate) fn block_bytes(geometry: &Geometry) -> u64
    ensures value { result ≡ block_bytes_of geometry.now }
    ensures limits { IsWithinLimits geometry.now }
{
    u64::from(geometry.u()) * SECTOR as u64
}

/// Takes the blocks of a stripe of this geometry into its data cells, in their order.
pub(crate) fn take_blocks<S: Source>(
    geometry: &Geometry,
    stripe: &mut Stripe,
    intake: &mut Intake,
    input: &mut S,
) -> Result<(), Fault>
    requires of { IsStripeOf geometry.now stripe.old }
    requires well_formed { IsWellFormed stripe.old }
    requires room { intake.old.took + block_bytes_of geometry.now ≤ intake.old.needed }
    ensures ok { OnOk result (TakesBlocksTo (source_view S.Source) geometry.now
        (data_cells geometry.now) intake.old intake.new stripe.new input.old input.new) }
    ensures cut { IfErr result (CutsShort (source_view S.Source)
        intake.old input.old input.new) }
    ensures of { IsStripeOf geometry.now stripe.new }
    ensures well_formed { IsWellFormed stripe.new }
{
    let mut sector = [0; SECTOR];
    for number in 0..geometry.u() {
        intake.fill(input, &mut sector)?;
        let place = geometry.place_of(u64::from(number));
        stripe.put(place.row, place.slot, &sector);
    }
    Ok(())
}
