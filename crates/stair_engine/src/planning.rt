ghost use Rattle.std.specs.Prelude.{◌≡◌, ℕ};
ghost use Rattle.stair_engine.specs.Programs.{costs_program};
ghost use Rattle.stair_command.specs.Fault.{status_of};
ghost use Rattle.stair_command.specs.Executes.{Executes};
ghost use Rattle.stair_command.specs.Outside.{outside, sink_alone};
ghost use Rattle.stair_command.specs.Program.{Over};

use stair_base::Geometry;
use stair_command::{Fault, Status, put_all};
use stair_plan::plan;
use stair_rack::Sink;
use std::alloc::Global;

/// Puts out what the code of this geometry costs.
pub(crate) fn tell_costs<K: Sink>(
    alloc: Global,
    geometry: &Geometry,
    output: &mut K,
) -> Result<Status, Fault>
    ensures { (counter : ℕ) → Executes (sink_alone K.Sink)
        (costs_program geometry.now) (Over (status_of result))
        (outside tt output.old counter) (outside tt output.new counter) }
{
    let costs = plan(alloc, geometry)?;
    put_all(output, costs.text().bytes())?;
    Ok(Status::Done)
}
