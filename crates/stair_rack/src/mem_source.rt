// A source over bytes in memory.
ghost use Rattle.std.specs.Prelude.{◌≡◌, ◌<◌, ◌≤◌, ◌↔◌, Some, false, length, min, IfOk, IsTrue};
ghost use Rattle.stair_rack.specs.Count.{Rose};
ghost use Rattle.stair_rack.specs.MemSource.{AnswersTake, after_take, count_before_fault};
ghost use Rattle.stair_rack.specs.Source.{TakeConsumes, TakesWithin};

use crate::count::raised;
use crate::source::{Source, Taken};
use std::alloc::{AllocError, Global};
use std::marker::Model;

/// A source over a copy of some bytes, which gives them in pieces of a chosen size and may be made to
/// fail from a chosen byte on.
#[derive(Debug, Drop)]
pub struct MemSource {
    bytes: Vec<u8>,
    // How many of the bytes were given.
    given: usize,
    // How many bytes come before each take fails.
    fails_after: Option<u64>,
    piece: usize,
    faults: u64,
    ended: bool,
}

impl Model for MemSource {
    ghost use Rattle.std.specs.Prelude.{◌≡◌, ◌<◌, ◌≤◌, Some, true, drop};
    ghost use Rattle.stair_rack.specs.MemSource.{MemSourceState, IsSoundMemSource};

    ghost Value = { MemSourceState };

    ghost view = { λ s. record {
      left = drop s.given s.bytes.items;
      fails_after = s.fails_after;
      piece = s.piece;
      faults = s.faults;
      ended = s.ended;
    } };

    ghost invariant = { λ s. IsSoundMemSource s.bytes.items s.given s.fails_after s.piece s.ended };
}

impl MemSource {
    /// A source that gives a copy of `bytes`, at most `piece` bytes in one answer.
    ///
    /// Where `fail_at` is `Some(p)`, it gives the first `p` bytes, and then every take fails, also
    /// where `p` is the number of the bytes. Where there are fewer than `p` bytes it gives them all
    /// and ends.
    pub fn new(
        alloc: Global,
        bytes: &[u8],
        piece: usize,
        fail_at: Option<u64>,
    ) -> Result<MemSource, AllocError>
        requires { 0 < piece }
        ensures { IfOk result (λ s. s ≡ record {
          left = bytes.now;
          fails_after = fail_at;
          piece = piece;
          faults = 0;
          ended = false;
        }) }
    {
        let bytes = bytes.to_vec(alloc)?;
        Ok(MemSource {
            bytes,
            given: 0,
            fails_after: fail_at,
            piece,
            faults: 0,
            ended: false,
        })
    }

    /// The bytes that are left.
    pub fn left(&self) -> &[u8]
        ensures { result.now ≡ self.now.left }
    {
        &self.bytes[self.given..]
    }
}

impl Source for MemSource {
    ghost left = { λ s. Some s.left };

    ghost faults = { λ s. s.faults };

    ghost ended = { λ s. s.ended };

    fn take(&mut self, into: &mut [u8]) -> Taken
        requires { 0 < length into.old }
        ensures within { TakesWithin result (length into.old) }
        ensures bytes { TakeConsumes (Some self.old.left) (Some self.new.left) result into.new }
        ensures count { self.old.faults ≤ self.new.faults }
        ensures failed { result ≡ Taken.Failed → Rose self.old.faults self.new.faults }
        ensures ends { IsTrue self.new.ended ↔ (result ≡ Taken.End) }
        ensures stays_ended { IsTrue self.old.ended → result ≡ Taken.End }

        // Exactly which answer comes, and what the source is afterwards.
        ensures answer { AnswersTake self.old (length into.old) result }
        ensures after { self.new ≡ after_take self.old result }
    {
        if matches!(self.fails_after, Some(0)) {
            self.faults = raised(self.faults);
            return Taken::Failed;
        }
        let to_come = count_to_come(self.bytes.len() - self.given, self.fails_after);
        let size = into.len().min(self.piece.min(to_come));
        if size == 0 {
            self.ended = true;
            return Taken::End;
        }
        into[..size].copy_from_slice(&self.bytes[self.given..self.given + size]);
        self.given += size;
        self.fails_after = self.fails_after.map(|before| before - size as u64);
        Taken::Bytes(size)
    }
}

// How many of `left` bytes come before takes fail.
fn count_to_come(left: usize, fails_after: Option<u64>) -> usize
    ensures value { result ≡ count_before_fault left fails_after }
    ensures within { result ≤ left }
{
    match fails_after {
        Some(before) if before < left as u64 => before as usize,
        _ => left,
    }
}
