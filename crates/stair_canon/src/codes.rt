ghost use Rattle.std.specs.Prelude.{◌≡◌, ℕ, ◌+◌, ◌-◌, ◌*◌, ◌<◌, ◌≤◌, IfOk, IfSome, All, length, slice_index_or};
ghost use Rattle.stair_model.specs.CauchyCode.{AreKnownPlaces};
ghost use Rattle.stair_model.specs.Stripe.{IsSector};
ghost use Rattle.stair_mds.specs.Solving.{AreWantedPlaces, IsLineOf, SolvesAlong};
ghost use Rattle.stair_canon.specs.Patterns.{no_code};

use stair_gf::Steps;
use stair_mds::{Line, Mds, Symbols};
use std::alloc::{AllocError, Global};
use std::marker::Model;
use std::sync::ledger::Ledger;

/// How many patterns stay prepared.
///
/// Encoding a stripe takes at most m+m' patterns of rows and m'+1 of chunks, always in the same order, so that for codes
/// with m+m' <= 16 none is prepared again for the next stripe.
pub(crate) const PATTERNS: usize = 16;

/// Codes of one shape, each with a pattern of its own, so that patterns that come round stay prepared.
#[derive(Drop)]
pub(crate) struct Codes {
    codes: Vec<Mds>,
    // The number of the code that was used last, and for each code that of the one that was used after it.
    last: usize,
    next: [usize; PATTERNS],
}

impl Model for Codes {
    ghost use Rattle.stair_mds.specs.Solving.{Shape};

    ghost Value = { Shape };

    ghost use Rattle.stair_canon.specs.Patterns.{shape_of, AreKeptCodes};

    ghost view = { shape_of };

    ghost invariant = { AreKeptCodes };
}

impl Codes {
    /// Codes of the row matrix.
    pub(crate) fn rows(alloc: Global, n: u8, m: u8, classes: u8) -> Result<Codes, AllocError>
        requires devices { (3 ≤ n) × (n ≤ 32) }
        requires parity { 1 ≤ m }
        requires majority { 2 * m < n }
        requires classes { (1 ≤ classes) × (classes ≤ n - m) }
        ensures { IfOk result (λ codes. codes ≡ record { held = n - m; total = n + classes }) }
    {
        let mut codes = Vec::with_capacity(alloc, PATTERNS)?;
        for _made in 0..PATTERNS {
            codes.push(Mds::row(alloc, n, m, classes)?)?;
        }
        Ok(Codes {
            codes,
            last: 0,
            next: [0; PATTERNS],
        })
    }

    /// Codes of the column matrix.
    pub(crate) fn columns(alloc: Global, r: u8, e_max: u8) -> Result<Codes, AllocError>
        requires some { 1 ≤ e_max }
        requires within { e_max ≤ r }
        requires rows { r ≤ 32 }
        ensures { IfOk result (λ codes. codes ≡ record { held = r; total = r + e_max }) }
    {
        let mut codes = Vec::with_capacity(alloc, PATTERNS)?;
        for _made in 0..PATTERNS {
            codes.push(Mds::column(alloc, r, e_max)?)?;
        }
        Ok(Codes {
            codes,
            last: 0,
            next: [0; PATTERNS],
        })
    }

    /// Solves the wanted symbols along a line from the first `read` known ones, as [`Mds::apply_along`] does, by a code that
    /// has the pattern prepared wherever there is one.
    pub(crate) fn solve_along<L: Ledger>(
        &mut self,
        known: &[u16],
        wanted: &[u16],
        line: Line,
        read: usize,
        work: &mut Symbols,
        steps: &mut Steps<L>,
    )
        requires known { AreKnownPlaces self.old.held self.old.total known.now }
        requires wanted { AreWantedPlaces self.old known.now wanted.now }
        requires line { IsLineOf self.old (length work.old) line }
        requires read { read ≤ length known.now }
        ensures solved { SolvesAlong self.old line read known.now wanted.now work.old work.new }
        ensures sectors { All IsSector work.new }
        ensures cost { steps.new ≡ steps.old + length known.now * length wanted.now }
        ensures codes { self.new ≡ self.old }
    {
        let number = match number_of(&self.codes, self.next[self.last], known, wanted) {
            Some(number) => number,
            None => {
                let number = (self.last + 1) % PATTERNS;
                self.codes[number].prepare(known, wanted);
                number
            }
        };
        self.next[self.last] = number;
        self.last = number;
        self.codes[number].apply_along(line, read, work, steps);
    }
}

/// The number of a code that has this pattern prepared, looked for from number `first` on. None where there is none.
fn number_of(codes: &[Mds], first: usize, known: &[u16], wanted: &[u16]) -> Option<usize>
    requires all { length codes.now ≡ 16 }
    requires first { first < 16 }
    ensures below { IfSome result (λ number. number < 16) }
    ensures prepared { IfSome result (λ number.
        ((slice_index_or codes.now number no_code).known ≡ known.now)
        × ((slice_index_or codes.now number no_code).wanted ≡ wanted.now)) }
{
    for passed in 0..PATTERNS {
        let number = (first + passed) % PATTERNS;
        if codes[number].has_prepared(known, wanted) {
            return Some(number);
        }
    }
    None
}
