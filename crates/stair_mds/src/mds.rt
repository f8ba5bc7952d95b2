ghost use Rattle.std.specs.Prelude.{◌≡◌, ℕ, ◌+◌, ◌-◌, ◌*◌, ◌<◌, ◌≤◌, ◌↔◌, IfOk, IsTrue, All, [], length, slice_index, vec_len};
ghost use Rattle.std.specs.Vec.{vec_capacity};
ghost use Rattle.stair_model.specs.CauchyCode.{AreKnownPlaces};
ghost use Rattle.stair_model.specs.Stripe.{IsSector};
ghost use Rattle.stair_mds.specs.Solving.{AreWantedPlaces, IsLineOf, IsPrepared, Solves, SolvesAlong};

use crate::coefficients::{known_parts, push_coefficients, wanted_part};
use crate::distances::weight;
use crate::line::Line;
use crate::symbols::Symbols;
use stair_gf::{Factor, Steps};
use std::alloc::{AllocError, Global};
use std::marker::Model;
use std::sync::ledger::Ledger;

/// A systematic code over GF(2^8), whose first places hold symbols as they are and whose further places hold parities by
/// a Cauchy matrix (Blömer et al., An XOR-Based Erasure-Resilient Coding Scheme, 1995), the points of which are the
/// places' own numbers. Any places as many as are held determine all others.
///
/// Which places are known and which are wanted is a pattern. A pattern is prepared once, and then applied to the symbols
/// of any number of codewords.
#[derive(Drop)]
pub struct Mds {
    held: u8,
    weights: Vec<u8>,
    // The pattern that is prepared, and its coefficients, wanted place by wanted place.
    known: Vec<u16>,
    wanted: Vec<u16>,
    coefficients: Vec<Factor>,
}

impl Model for Mds {
    ghost use Rattle.stair_mds.specs.Solving.{Code};

    ghost Value = { Code };

    ghost use Rattle.stair_mds.specs.Kept.{shown, IsKept};

    ghost view = { shown };

    ghost invariant = { IsKept };
}

impl Mds {
    /// The code of the row matrix: n-m held symbols and m+m' parities, n+m' symbols in all, m' being `classes`.
    pub fn row(alloc: Global, n: u8, m: u8, classes: u8) -> Result<Mds, AllocError>
        requires devices { (3 ≤ n) × (n ≤ 32) }
        requires parity { 1 ≤ m }
        requires majority { 2 * m < n }
        requires classes { (1 ≤ classes) × (classes ≤ n - m) }
        ensures { IfOk result (λ code. code ≡ record {
          shape = record { held = n - m; total = n + classes };
          known = [];
          wanted = [];
        }) }
    {
        Mds::with_places(alloc, n - m, n + classes)
    }

    /// The code of the column matrix: r held symbols and e_max parities, r+e_max symbols in all.
    pub fn column(alloc: Global, r: u8, e_max: u8) -> Result<Mds, AllocError>
        requires some { 1 ≤ e_max }
        requires within { e_max ≤ r }
        requires rows { r ≤ 32 }
        ensures { IfOk result (λ code. code ≡ record {
          shape = record { held = r; total = r + e_max };
          known = [];
          wanted = [];
        }) }
    {
        Mds::with_places(alloc, r, r + e_max)
    }

    fn with_places(alloc: Global, held: u8, total: u8) -> Result<Mds, AllocError>
        requires some { 1 ≤ held }
        requires within { held ≤ total }
        requires few { held ≤ 32 }
        requires few_wanted { total ≤ held + 32 }
        ensures { IfOk result (λ code. code ≡ record {
          shape = record { held = held; total = total };
          known = [];
          wanted = [];
        }) }
    {
        let mut weights = Vec::with_capacity(alloc, usize::from(total))?;
        for place in 0..total {
            weights.push(weight(held, place))?;
        }
        let most_known = usize::from(held);
        let most_wanted = usize::from(total - held);
        Ok(Mds {
            held,
            weights,
            known: Vec::with_capacity(alloc, most_known)?,
            wanted: Vec::with_capacity(alloc, most_wanted)?,
            coefficients: Vec::with_capacity(alloc, most_wanted * most_known)?,
        })
    }

    /// Prepares a pattern, so that [`Mds::apply`] solves the wanted symbols from the known ones, for any symbols.
    ///
    /// The known places are distinct and as many as the code has held symbols; the wanted ones are distinct and none of
    /// them is known. It takes no memory.
    pub fn prepare(&mut self, known: &[u16], wanted: &[u16])
        requires known { AreKnownPlaces self.old.shape.held self.old.shape.total known.now }
        requires wanted { AreWantedPlaces self.old.shape known.now wanted.now }
        ensures { self.new ≡ record {
          shape = self.old.shape;
          known = known.now;
          wanted = wanted.now;
        } }
    {
        let parts = known_parts(&self.weights, known);
        self.coefficients.clear();
        for place in wanted {
            let part = wanted_part(&self.weights, known, *place);
            push_coefficients(&mut self.coefficients, known, &parts, *place, part);
        }
        replace(&mut self.known, known);
        replace(&mut self.wanted, wanted);
    }

    /// Prepares a pattern where it isn't the one that was prepared last.
    fn prepare_once(&mut self, known: &[u16], wanted: &[u16])
        requires known { AreKnownPlaces self.old.shape.held self.old.shape.total known.now }
        requires wanted { AreWantedPlaces self.old.shape known.now wanted.now }
        ensures { self.new ≡ record {
          shape = self.old.shape;
          known = known.now;
          wanted = wanted.now;
        } }
    {
        if !self.has_prepared(known, wanted) {
            self.prepare(known, wanted);
        }
    }

    /// Whether a pattern is prepared.
    pub fn prepared(&self) -> bool
        ensures { IsTrue result ↔ IsPrepared self.now }
    {
        self.known.len() == usize::from(self.held)
    }

    /// Whether the pattern that was prepared last is this one.
    pub fn has_prepared(&self, known: &[u16], wanted: &[u16]) -> bool
        ensures { IsTrue result ↔ ((self.now.known ≡ known.now) × (self.now.wanted ≡ wanted.now)) }
    {
        self.known.as_slice() == known && self.wanted.as_slice() == wanted
    }

    /// Sets the wanted symbols of the pattern that is prepared to those of the one codeword that has the known ones, and
    /// leaves all others.
    ///
    /// `work` has as many symbols as the code has places. It takes a step for each known symbol of each wanted one, and no
    /// memory.
    pub fn apply<L: Ledger>(&self, work: &mut Symbols, steps: &mut Steps<L>)
        requires prepared { IsPrepared self.now }
        requires count { length work.old ≡ self.now.shape.total }
        ensures solved { Solves self.now.shape self.now.known self.now.wanted work.old work.new }
        ensures sectors { All IsSector work.new }
        ensures cost { steps.new ≡ steps.old + length self.now.known * length self.now.wanted }
    {
        self.apply_along(Line { start: 0, step: 1 }, self.known.len(), work, steps);
    }

    /// Does the same where the places of the code lie along this line of `work`: sets the wanted symbols there to those of
    /// the one codeword that has the known ones, and leaves all others.
    ///
    /// Of the known symbols the first `read` are read; the others count as zero, whatever they hold. It takes a step for
    /// each known symbol of each wanted one, whether it is read or not, and no memory.
    pub fn apply_along<L: Ledger>(
        &self,
        line: Line,
        read: usize,
        work: &mut Symbols,
        steps: &mut Steps<L>,
    )
        requires prepared { IsPrepared self.now }
        requires line { IsLineOf self.now.shape (length work.old) line }
        requires read { read ≤ length self.now.known }
        ensures solved { SolvesAlong self.now.shape line read self.now.known self.now.wanted
            work.old work.new }
        ensures sectors { All IsSector work.new }
        ensures cost { steps.new ≡ steps.old + length self.now.known * length self.now.wanted }
    {
        // What the code and the symbols keep is known from here on.
        let _ = &self.weights;
        let _ = &work.symbols;
        let held = usize::from(self.held);
        let wanted = self.wanted.len();
        let from = line.symbols(&self.known);
        let into = line.symbols(&self.wanted);
        work.sum_up(&into[..wanted], &from[..read], &self.coefficients, held);
        take_steps(steps, held * wanted);
        // And what the symbols keep is known again.
        let _ = &work.symbols;
    }

    /// Sets the wanted symbols to those of the one codeword that has the known ones, and leaves all others.
    ///
    /// The places are as [`Mds::prepare`] takes them, and `work` has as many symbols as the code has places. It takes a
    /// step for each known symbol of each wanted one, and no memory. The pattern is prepared only where it isn't the one
    /// that was prepared last.
    pub fn solve<L: Ledger>(
        &mut self,
        known: &[u16],
        wanted: &[u16],
        work: &mut Symbols,
        steps: &mut Steps<L>,
    )
        requires known { AreKnownPlaces self.old.shape.held self.old.shape.total known.now }
        requires wanted { AreWantedPlaces self.old.shape known.now wanted.now }
        requires count { length work.old ≡ self.old.shape.total }
        ensures solved { Solves self.old.shape known.now wanted.now work.old work.new }
        ensures sectors { All IsSector work.new }
        ensures cost { steps.new ≡ steps.old + length known.now * length wanted.now }
        ensures code { self.new ≡ record {
          shape = self.old.shape;
          known = known.now;
          wanted = wanted.now;
        } }
    {
        self.prepare_once(known, wanted);
        self.apply(work, steps);
    }
}

fn take_steps<L: Ledger>(steps: &mut Steps<L>, count: usize)
    ensures { steps.new ≡ steps.old + count }
{
    for _step in 0..count {
        steps.tick();
    }
}

/// Replaces the places of a list, which has room for the new ones.
fn replace(places: &mut Vec<u16>, by: &[u16])
    requires { length by.now ≤ vec_capacity places.old }
    ensures items { places.new.items ≡ by.now }
    ensures capacity { vec_capacity places.old ≤ vec_capacity places.new }
{
    places.clear();
    let _ = places.extend_from_slice(by);
}
