ghost use Rattle.std.specs.Prelude.{◌≡◌, ℕ, ◌*◌, ◌+◌, ◌<◌, ◌≤◌, IfOk, All, [], false, length, replicate, slice_index, slice_index_or, slice_set, true};
ghost use Rattle.stair_model.specs.CauchyCode.{AreKnownPlaces};
ghost use Rattle.stair_model.specs.Stripe.{IsSector, SECTOR};
ghost use Rattle.stair_mds.specs.Solving.{AreWantedPlaces, IsLineOf, along};
ghost use Rattle.stair_canon.specs.Along.{FillsIn, MakesKnown, SolvesKnown};
ghost use Rattle.stair_canon.specs.Canonical.{is_known};

use crate::codes::Codes;
use stair_gf::Steps;
use stair_mds::{Line, SYMBOL, Symbols};
use std::alloc::{AllocError, Global};
use std::marker::Model;
use std::sync::ledger::Ledger;

/// Symbols by their numbers, each of which is known, or else zero, whatever its memory holds.
///
/// So forgetting a symbol writes nothing, and a known zero is not multiplied where it is the last of those that others
/// are solved from.
#[derive(Drop)]
pub(crate) struct KnownSymbols {
    symbols: Symbols,
    known: Vec<bool>,
}

impl Model for KnownSymbols {
    ghost use Rattle.stair_canon.specs.Canonical.{KnownSymbols as Shown};

    ghost Value = { Shown };

    ghost view = { λ a. record { memory = a.symbols; known = a.known.items } };
}

impl KnownSymbols {
    /// So many zero symbols, none of them known.
    pub(crate) fn new(alloc: Global, count: u16) -> Result<KnownSymbols, AllocError>
        ensures { IfOk result (λ symbols. symbols ≡ record {
          memory = replicate count (replicate SECTOR 0);
          known = replicate count false;
        }) }
    {
        let mut known = Vec::with_capacity(alloc, usize::from(count))?;
        for _made in 0..count {
            known.push(false)?;
        }
        Ok(KnownSymbols {
            symbols: Symbols::new(alloc, count)?,
            known,
        })
    }

    /// Whether the symbol of this number is known.
    pub(crate) fn is_known(&self, number: u16) -> bool
        requires { number < length self.now.known }
        ensures { result ≡ is_known self.now number }
    {
        self.known[usize::from(number)]
    }

    /// The memory of the symbol of this number: its bytes, where it is known.
    pub(crate) fn memory(&self, number: u16) -> &[u8; SYMBOL]
        requires { number < length self.now.memory }
        ensures value { result.now ≡ slice_index_or self.now.memory number [] }
        ensures sector { IsSector result.now }
    {
        self.symbols.symbol(number)
    }

    /// Puts these bytes into the symbol of this number, which is known from now on.
    pub(crate) fn put(&mut self, number: u16, bytes: &[u8; SYMBOL])
        requires symbol { number < length self.old.memory }
        requires mark { number < length self.old.known }
        ensures { self.new ≡ record {
          memory = slice_set self.old.memory number bytes.now;
          known = slice_set self.old.known number true;
        } }
    {
        self.symbols.put(number, bytes);
        self.known[usize::from(number)] = true;
    }

    /// Forgets the symbol of this number, which is zero from now on.
    pub(crate) fn forget(&mut self, number: u16)
        requires { number < length self.old.known }
        ensures { self.new ≡ record {
          memory = self.old.memory;
          known = slice_set self.old.known number false;
        } }
    {
        self.known[usize::from(number)] = false;
    }
    /// Solves the wanted symbols along a line, which are known from then on, by these codes.
    pub(crate) fn solve<L: Ledger>(
        &mut self,
        codes: &mut Codes,
        line: Line,
        known: &[u16],
        wanted: &[u16],
        steps: &mut Steps<L>,
    )
        requires known { AreKnownPlaces codes.old.held codes.old.total known.now }
        requires wanted { AreWantedPlaces codes.old known.now wanted.now }
        requires line { IsLineOf codes.old (length self.old.memory) line }
        requires marks { length self.old.known ≡ length self.old.memory }
        requires few { length self.old.memory ≤ 4096 }
        ensures solved { SolvesKnown codes.old line known.now wanted.now self.old self.new }
        ensures sectors { All IsSector self.new.memory }
        ensures cost { steps.new ≡ steps.old + length known.now * length wanted.now }
        ensures codes { codes.new ≡ codes.old }
    {
        let read = self.count_to_read(line, known);
        self.fill_in(line, &known[..read]);
        codes.solve_along(known, wanted, line, read, &mut self.symbols, steps);
        self.make_known(line, wanted);
    }

    /// How many of these places are to be read: none of those after them is known, so that all of these are zero.
    fn count_to_read(&self, line: Line, places: &[u16]) -> usize
        requires within { (i : ℕ) → i < length places.now →
            along line (slice_index places.now i) < length self.now.known }
        requires few { length self.now.known ≤ 4096 }
        ensures some { result ≤ length places.now }
        ensures rest { (i : ℕ) → result ≤ i → i < length places.now →
            is_known self.now (along line (slice_index places.now i)) ≡ false }
    {
        let mut read = 0;
        for (passed, place) in places.iter().enumerate() {
            if self.is_known(line.symbol(*place)) {
                read = passed + 1;
            }
        }
        read
    }

    /// Writes zeros into the memory of those symbols at these places that aren't known.
    fn fill_in(&mut self, line: Line, places: &[u16])
        requires within { (i : ℕ) → i < length places.now →
            along line (slice_index places.now i) < length self.old.memory }
        requires marks { length self.old.known ≡ length self.old.memory }
        requires few { length self.old.memory ≤ 4096 }
        ensures { FillsIn line places.now self.old self.new }
    {
        for place in places {
            let number = line.symbol(*place);
            if !self.is_known(number) {
                self.symbols.put(number, &[0; SYMBOL]);
            }
        }
    }

    /// Marks the symbols at these places as known.
    fn make_known(&mut self, line: Line, places: &[u16])
        requires within { (i : ℕ) → i < length places.now →
            along line (slice_index places.now i) < length self.old.known }
        requires few { length self.old.known ≤ 4096 }
        ensures { MakesKnown line places.now self.old self.new }
    {
        for place in places {
            self.known[usize::from(line.symbol(*place))] = true;
        }
    }
}
