ghost use Rattle.std.specs.Prelude.{◌≡◌, ◌<◌, ◌≤◌, IfErr, length};
ghost use Rattle.stair_command.specs.Outside.{sink_view, source_view};
ghost use Rattle.stair_command.specs.Streams.{FillGives, PutsAll};

use crate::fault::Fault;
use stair_rack::{Sink, Source, Taken};
use stair_watch::put_until_fault;

/// What came of taking bytes from a source.
#[derive(Clone, Copy, Debug, PartialEq, Eq)]
pub enum Filled {
    /// So many bytes, as many as were asked for at least.
    Enough(usize),
    /// The source ended after so many bytes, which are fewer.
    Short(usize),
    Failed,
}

/// Takes at least so many bytes from the source, and at most as many as the piece has room for: once there are enough, no more
/// is asked for.
pub fn take_at_least<S: Source>(input: &mut S, least: usize, into: &mut [u8]) -> Filled
    requires some { 0 < least }
    requires room { least ≤ length into.old }
    ensures { FillGives (source_view S.Source) least result into.new
        input.old input.new }
{
    let mut filled = 0;
    while filled < least {
        match input.take(&mut into[filled..]) {
            Taken::Bytes(count) => filled += count,
            Taken::End => return Filled::Short(filled),
            Taken::Failed => return Filled::Failed,
        }
    }
    Filled::Enough(filled)
}

/// Puts all of the bytes into the sink.
pub fn put_all<K: Sink>(output: &mut K, bytes: &[u8]) -> Result<(), Fault>
    ensures puts { PutsAll (sink_view K.Sink) result bytes.now output.old output.new }
    ensures failed { IfErr result (λ fault. fault ≡ Fault.Output) }
{
    if put_until_fault(output, bytes) < bytes.len() {
        return Err(Fault::Output);
    }
    Ok(())
}
