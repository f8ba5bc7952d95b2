// A sink over a writer.
ghost use Rattle.std.specs.Prelude.{◌≡◌, ◌<◌, ◌≤◌, length};
ghost use Rattle.stair_rack.specs.Count.{Rose};
ghost use Rattle.stair_rack.specs.FromWrite.{faults_after_put, put_of};
ghost use Rattle.stair_rack.specs.Sink.{PutAppends, PutsWithin};

use crate::count::raised;
use crate::retry::write_retrying;
use crate::sink::{Put, Sink};
use std::io;
use std::io::Write;
use std::marker::Model;

/// A sink over a writer. It tells the bytes that the writer is known to hold.
///
/// A write of 0 bytes is a fault. A write that is interrupted is tried again up to 16 times in one
/// put; a further interruption is a fault, as is every other error. Nothing is flushed.
#[derive(Debug, Drop)]
pub struct FromWrite<T: Write> {
    writer: T,
    faults: u64,
}

impl<T: Write> Model for FromWrite<T> {
    ghost use Rattle.stair_rack.specs.FromWrite.{FromWriteState};

    ghost Value = { FromWriteState };

    ghost view = { λ s. record { held = T.contents s.writer; faults = s.faults } };
}

impl<T: Write + Drop> FromWrite<T> {
    /// A sink into `writer`, after what it holds.
    pub fn new(writer: T) -> FromWrite<T>
        ensures held { ⟦<FromWrite<T> as Sink>⟧.held result ≡ T.contents writer }
        ensures faults { ⟦<FromWrite<T> as Sink>⟧.faults result ≡ 0 }
    {
        FromWrite { writer, faults: 0 }
    }
}

impl<T: Write + Drop> Sink for FromWrite<T> {
    ghost held = { λ s. s.held };

    ghost faults = { λ s. s.faults };

    fn put(&mut self, from: &[u8]) -> Put
        requires { 0 < length from.now }
        ensures within { PutsWithin result (length from.now) }
        ensures bytes { PutAppends self.old.held self.new.held result from.now }
        ensures count { self.old.faults ≤ self.new.faults }
        ensures failed { result ≡ Put.Failed → Rose self.old.faults self.new.faults }

        // The count of faults rises by one at each fault, and at nothing else.
        ensures faults { self.new.faults ≡ faults_after_put self.old.faults result }
    {
        let put = put_of(write_retrying(&mut self.writer, from));
        if put == Put::Failed {
            self.faults = raised(self.faults);
        }
        put
    }
}

// What a write with this answer is to a sink: one of 0 bytes is a fault, and so is every error.
fn put_of(answer: io::Result<usize>) -> Put
    ensures { result ≡ put_of answer }
{
    match answer {
        Ok(0) | Err(_) => Put::Failed,
        Ok(count) => Put::Bytes(count),
    }
}
