// A source over a reader.
ghost use Rattle.std.specs.Prelude.{◌≡◌, ◌<◌, ◌≤◌, ◌↔◌, false, length, IsTrue};
ghost use Rattle.stair_rack.specs.Count.{Rose};
ghost use Rattle.stair_rack.specs.FromRead.{faults_after_take, taken_of};
ghost use Rattle.stair_rack.specs.Source.{TakeConsumes, TakesWithin};

use crate::count::raised;
use crate::retry::read_retrying;
use crate::source::{Source, Taken};
use std::io;
use std::io::Read;
use std::marker::Model;

/// A source over a reader. It tells the bytes that the reader is known to have left.
///
/// A read of 0 bytes is the end, and the reader isn't read again after it. A read that is interrupted
/// is tried again up to 16 times in one take; a further interruption is a fault, as is every other
/// error.
#[derive(Debug, Drop)]
pub struct FromRead<T: Read> {
    reader: T,
    faults: u64,
    ended: bool,
}

impl<T: Read> Model for FromRead<T> {
    ghost use Rattle.stair_rack.specs.FromRead.{FromReadState, IsSoundFromRead};

    ghost Value = { FromReadState };

    ghost view = { λ s.
        record { left = T.remaining s.reader; faults = s.faults; ended = s.ended } };

    ghost invariant = { λ s. IsSoundFromRead (T.remaining s.reader) s.ended };
}

impl<T: Read + Drop> FromRead<T> {
    /// A source of what `reader` gives from here on.
    pub fn new(reader: T) -> FromRead<T>
        ensures left { ⟦<FromRead<T> as Source>⟧.left result ≡ T.remaining reader }
        ensures faults { ⟦<FromRead<T> as Source>⟧.faults result ≡ 0 }
        ensures ended { ⟦<FromRead<T> as Source>⟧.ended result ≡ false }
    {
        FromRead {
            reader,
            faults: 0,
            ended: false,
        }
    }
}

impl<T: Read + Drop> Source for FromRead<T> {
    ghost left = { λ s. s.left };

    ghost faults = { λ s. s.faults };

    ghost ended = { λ s. s.ended };

    fn take(&mut self, into: &mut [u8]) -> Taken
        requires { 0 < length into.old }
        ensures within { TakesWithin result (length into.old) }
        ensures bytes { TakeConsumes self.old.left self.new.left result into.new }
        ensures count { self.old.faults ≤ self.new.faults }
        ensures failed { result ≡ Taken.Failed → Rose self.old.faults self.new.faults }
        ensures ends { IsTrue self.new.ended ↔ (result ≡ Taken.End) }
        ensures stays_ended { IsTrue self.old.ended → result ≡ Taken.End }

        // The count of faults rises by one at each fault, and at nothing else.
        ensures faults { self.new.faults ≡ faults_after_take self.old.faults result }
    {
        if self.ended {
            return Taken::End;
        }
        let taken = taken_of(read_retrying(&mut self.reader, into));
        match taken {
            Taken::Bytes(_) => {}
            Taken::End => self.ended = true,
            Taken::Failed => self.faults = raised(self.faults),
        }
        taken
    }
}

// What a read with this answer is to a source: one of 0 bytes is the end, and every error a fault.
fn taken_of(answer: io::Result<usize>) -> Taken
    ensures { result ≡ taken_of answer }
{
    match answer {
        Ok(0) => Taken::End,
        Ok(count) => Taken::Bytes(count),
        Err(_) => Taken::Failed,
    }
}
