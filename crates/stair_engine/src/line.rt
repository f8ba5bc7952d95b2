ghost use Rattle.std.specs.Prelude.{ℕ, map};
ghost use Rattle.stair_command.specs.Fault.{status_of};
ghost use Rattle.stair_command.specs.Executes.{Executes};
ghost use Rattle.stair_command.specs.Outside.{outside, sink_alone};
ghost use Rattle.stair_command.specs.Program.{Over, Put};
ghost use Rattle.stair_status.specs.declared.status.Status.TheVariants.{Done};

use stair_command::{Fault, Status, put_all};
use stair_rack::Sink;

/// Puts out the line by which a command tells that all was done.
pub(crate) fn put_line<K: Sink>(output: &mut K, line: &[u8]) -> Result<Status, Fault>
    ensures means { (counter : ℕ) → Executes (sink_alone K.Sink)
        (Put line.now (Over Done)) (Over (status_of result))
        (outside tt output.old counter) (outside tt output.new counter) }
{
    put_all(output, line)?;
    Ok(Status::Done)
}
