// A sink over memory.
ghost use Rattle.std.specs.Prelude.{◌≡◌, ◌<◌, ◌≤◌, Some, [], length, IfOk};
ghost use Rattle.stair_rack.specs.Count.{Rose};
ghost use Rattle.stair_rack.specs.MemSink.{AnswersPut, after_put};
ghost use Rattle.stair_rack.specs.Sink.{PutAppends, PutsWithin};

use crate::count::raised;
use crate::sink::{Put, Sink};
use std::alloc::{AllocError, Global};
use std::marker::Model;

/// A sink that holds what it takes, up to a chosen number of bytes, and fails once they are spent.
#[derive(Debug, Drop)]
pub struct MemSink {
    held: Vec<u8>,
    room: usize,
    faults: u64,
}

impl Model for MemSink {
    ghost use Rattle.std.specs.Prelude.{◌≤◌, vec_len, vec_capacity};
    ghost use Rattle.stair_rack.specs.MemSink.{MemSinkState};

    ghost Value = { MemSinkState };

    ghost view = { λ s. record { held = s.held.items; room = s.room; faults = s.faults } };

    ghost invariant = { λ s. (vec_len s.held ≤ s.room) × (s.room ≤ vec_capacity s.held) };
}

impl MemSink {
    /// An empty sink with room for `room` bytes. It takes the memory for them here, and none later.
    pub fn new(alloc: Global, room: usize) -> Result<MemSink, AllocError>
        ensures { IfOk result (λ s. s ≡ record { held = []; room = room; faults = 0 }) }
    {
        let held = Vec::with_capacity(alloc, room)?;
        Ok(MemSink {
            held,
            room,
            faults: 0,
        })
    }

    /// The bytes that the sink holds.
    pub fn bytes(&self) -> &[u8]
        ensures value { result.now ≡ self.now.held }
        ensures within { length self.now.held ≤ self.now.room }
    {
        self.held.as_slice()
    }
}

impl Sink for MemSink {
    ghost held = { λ s. Some s.held };

    ghost faults = { λ s. s.faults };

    fn put(&mut self, from: &[u8]) -> Put
        requires { 0 < length from.now }
        ensures within { PutsWithin result (length from.now) }
        ensures bytes { PutAppends (Some self.old.held) (Some self.new.held) result from.now }
        ensures count { self.old.faults ≤ self.new.faults }
        ensures failed { result ≡ Put.Failed → Rose self.old.faults self.new.faults }

        // Exactly which answer comes, and what the sink is afterwards.
        ensures answer { AnswersPut self.old (length from.now) result }
        ensures after { self.new ≡ after_put self.old result from.now }
    {
        let size = from.len().min(self.room - self.held.len());
        if size == 0 {
            self.faults = raised(self.faults);
            return Put::Failed;
        }
        // There is room, so this takes no memory and can't fail.
        self.held.extend_from_slice(&from[..size]).unwrap();
        Put::Bytes(size)
    }
}
