// Writing to the output.
ghost use Rattle.std.specs.Prelude.{ℕ};
ghost use Rattle.stair_command.specs.Outside.{sink_view};
ghost use Rattle.stair_command.specs.Program.{Program, Put};
ghost use Rattle.stair_command.specs.Talks.{PutsTo};
ghost use Rattle.stair_volume.specs.Parts.{after_done};

use crate::fault::VolumeFault;
use stair_command::put_all;
use stair_rack::Sink;

/// Writes the bytes to the output.
pub(crate) fn put<K: Sink>(output: &mut K, bytes: &[u8]) -> Result<(), VolumeFault>
    ensures { (slots : ℕ) (rest : Program) → PutsTo (sink_view K.Sink)
        (Put bytes.now rest) (after_done slots result rest) output.old output.new }
{
    match put_all(output, bytes) {
        Ok(()) => Ok(()),
        Err(fault) => Err(VolumeFault::Transfer(fault)),
    }
}
