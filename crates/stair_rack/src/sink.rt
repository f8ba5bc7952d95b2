// What takes bytes.
ghost use Rattle.std.specs.Prelude.{◌≡◌, ◌<◌, ◌≤◌, ℕ, List, Option, length};
ghost use Rattle.stair_rack.specs.Count.{Rose};
ghost use Rattle.stair_rack.specs.Sink.{PutAppends, PutsWithin};

/// What [`Sink::put`] answers.
#[derive(Clone, Copy, Debug, PartialEq, Eq, Drop)]
pub enum Put {
    /// The sink took this many bytes, at least one, from the front of the piece.
    Bytes(usize),
    /// A fault: no byte was taken, and the sink's count of faults rose.
    Failed,
}

/// A sink for bytes, which may fail.
///
/// A sink may tell contracts the bytes that it holds. One that tells them keeps telling them, and
/// they grow by exactly the bytes that it takes.
pub trait Sink {
    // The bytes that the sink holds, where it tells them.
    ghost held: { Self → Option (List ℕ) };

    // How many faults there were. A count that is kept in a `u64` stands still at `u64::MAX`.
    ghost faults: { Self → ℕ };

    /// Puts bytes from the front of `from`, which has at least one.
    ///
    /// - `Bytes(k)`: the sink took `from[..k]`, with `k` from 1 to `from.len()`. The caller puts the
    ///   rest again.
    /// - `Failed`: no byte was taken, and the count of faults rose. A later put may take bytes
    ///   again.
    fn put(&mut self, from: &[u8]) -> Put
        requires { 0 < length from.now }
        ensures within { PutsWithin result (length from.now) }
        ensures bytes { PutAppends (held self.old) (held self.new) result from.now }

        // The count of faults never falls, and a put fails only where it rose.
        ensures count { faults self.old ≤ faults self.new }
        ensures failed { result ≡ Put.Failed → Rose (faults self.old) (faults self.new) };
}
