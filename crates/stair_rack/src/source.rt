// What gives bytes.
ghost use Rattle.std.specs.Prelude.{◌≡◌, ◌<◌, ◌≤◌, ◌↔◌, ℕ, Bool, List, Option, length, IsTrue};
ghost use Rattle.stair_rack.specs.Count.{Rose};
ghost use Rattle.stair_rack.specs.Source.{TakeConsumes, TakesWithin};

/// What [`Source::take`] answers.
#[derive(Clone, Copy, Debug, PartialEq, Eq, Drop)]
pub enum Taken {
    /// This many bytes, at least one, stand at the front of the piece.
    Bytes(usize),
    /// No byte is left. Every later take answers `End` too.
    End,
    /// A fault: no byte was taken, and the source's count of faults rose.
    Failed,
}

/// A source of bytes, which may fail.
///
/// A source may tell contracts the bytes that are left. One that tells them keeps telling them, gives
/// them in order, and answers `End` only where none are left; where none are left it answers `End` or
/// `Failed`. Of one that doesn't tell them, contracts know how many bytes an answer gives, and not
/// which.
pub trait Source {
    // The bytes that are left, where the source tells them.
    ghost left: { Self → Option (List ℕ) };

    // How many faults there were. A count that is kept in a `u64` stands still at `u64::MAX`.
    ghost faults: { Self → ℕ };

    // Whether the source has answered End.
    ghost ended: { Self → Bool };

    /// Takes some bytes to the front of `into`, which has room for at least one.
    ///
    /// - `Bytes(k)`: `k` bytes, from 1 to `into.len()`, are `into[..k]`. What stands in `into` after
    ///   them isn't said.
    /// - `End`: no byte is left; every later take answers `End`.
    /// - `Failed`: no byte was taken, and the count of faults rose. A later take may give bytes
    ///   again.
    ///
    /// After `End` and `Failed` it isn't said what stands in `into`.
    fn take(&mut self, into: &mut [u8]) -> Taken
        requires { 0 < length into.old }
        ensures within { TakesWithin result (length into.old) }
        ensures bytes { TakeConsumes (left self.old) (left self.new) result into.new }

        // The count of faults never falls, and a take fails only where it rose.
        ensures count { faults self.old ≤ faults self.new }
        ensures failed { result ≡ Taken.Failed → Rose (faults self.old) (faults self.new) }

        // The source has ended exactly after the answer End, and then answers nothing else.
        ensures ends { IsTrue (ended self.new) ↔ (result ≡ Taken.End) }
        ensures stays_ended { IsTrue (ended self.old) → result ≡ Taken.End };
}
