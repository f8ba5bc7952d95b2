ghost use Rattle.std.specs.Prelude.{◌≡◌, ◌+◌, ◌^◌, ◌<◌, ◌≤◌, [], length, take, OnOk, IfErr, IfOk};
ghost use Rattle.stair_command.specs.Executes.{Gives};
ghost use Rattle.stair_command.specs.Outside.{source_view};
ghost use Rattle.stair_command.specs.Trace.{Took, TookLast};
ghost use Rattle.stair_command.specs.Taking.{CutsShort, GoesOn, PieceIsCut, TakesBytes, intake_of};

use crate::fault::Fault;
use crate::streams::{Filled, take_at_least};
use stair_rack::{Source, Taken};

/// How many bytes a command needs from its source, and how many of them were taken.
#[derive(Clone, Copy, Debug, PartialEq, Eq)]
pub struct Intake {
    needed: u64,
    took: u64,
}

impl Intake {
    /// No byte of those needed was taken yet.
    pub fn new(needed: u64) -> Intake
        ensures { result ≡ intake_of needed }
    {
        Intake { needed, took: 0 }
    }

    /// Fills the piece from the source.
    pub fn fill<S: Source>(&mut self, input: &mut S, into: &mut [u8]) -> Result<(), Fault>
        requires piece { 0 < length into.old }
        requires room { self.old.took + length into.old ≤ self.old.needed }
        ensures ok { OnOk result (TakesBytes (source_view S.Source)
            self.old self.new into.new input.old input.new) }
        ensures cut { IfErr result (CutsShort (source_view S.Source)
            self.old input.old input.new) }
    {
        self.take(input, into.len(), into)?;
        Ok(())
    }

    /// Takes at least so many bytes, and at most as many as the piece has room for, and tells how many came.
    pub fn take<S: Source>(
        &mut self,
        input: &mut S,
        least: usize,
        into: &mut [u8],
    ) -> Result<usize, Fault>
        requires some { 0 < least }
        requires piece { least ≤ length into.old }
        requires room { self.old.took + length into.old ≤ self.old.needed }
        ensures ok { IfOk result (λ count. (least ≤ count) × (count ≤ length into.new)
            × Gives (source_view S.Source) (Took (take count into.new))
            input.old input.new) }
        ensures counted { IfOk result (λ count.
            self.new ≡ record self.old { took = self.old.took + count }) }
        ensures cut { IfErr result (PieceIsCut (source_view S.Source)
            least self.old input.old input.new) }
    {
        match take_at_least(input, least, into) {
            Filled::Enough(count) => {
                self.took += count as u64;
                Ok(count)
            }
            Filled::Short(count) => Err(Fault::Length {
                needed: self.needed,
                took: self.took + count as u64,
            }),
            Filled::Failed => Err(Fault::Input),
        }
    }

    /// Looks for the end after all the bytes that are needed.
    pub fn end<S: Source>(&self, input: &mut S) -> Result<(), Fault>
        requires all { self.now.took ≡ self.now.needed }
        requires fits { self.now.needed < 2 ^ 63 }
        ensures ok { OnOk result (Gives (source_view S.Source)
            (TookLast []) input.old input.new) }
        ensures more { IfErr result (GoesOn (source_view S.Source)
            self.now.needed input.old input.new) }
    {
        match input.take(&mut [0]) {
            Taken::End => Ok(()),
            Taken::Bytes(_) => Err(Fault::Length {
                needed: self.needed,
                took: self.needed + 1,
            }),
            Taken::Failed => Err(Fault::Input),
        }
    }
}
