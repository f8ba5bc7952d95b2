ghost use Rattle.std.specs.Prelude.{◌≡◌, ◌*◌, ◌<◌, ◌≤◌, IfOk, length, replicate, slice_index_or, slice_set, []};
ghost use Rattle.stair_model.specs.Stripe.{IsSector, SECTOR};
ghost use Rattle.stair_gf.specs.SetsSums.{AreApart, SetsSums};

use stair_gf::{Factor, SYMBOL, sums};
use std::alloc::{AllocError, Global};
use std::marker::Model;

/// Symbols of 512 bytes each, by their places.
#[derive(Drop)]
pub struct Symbols {
    pub(crate) symbols: Vec<[u8; SYMBOL]>,
}

impl Model for Symbols {
    ghost use Rattle.std.specs.Prelude.{List, ℕ};
    ghost use Rattle.stair_mds.specs.Kept.{AreSymbols};

    ghost Value = { List (List ℕ) };

    ghost view = { λ s. s.symbols.items };

    ghost invariant = { λ s. AreSymbols s.symbols.items };
}

impl Symbols {
    /// So many zero symbols, in one allocation.
    pub fn new(alloc: Global, count: u16) -> Result<Symbols, AllocError>
        ensures { IfOk result (λ symbols. symbols ≡ replicate count (replicate SECTOR 0)) }
    {
        let mut symbols = Vec::with_capacity(alloc, usize::from(count))?;
        for _made in 0..count {
            symbols.push([0; SYMBOL])?;
        }
        Ok(Symbols { symbols })
    }

    /// The bytes of the symbol at this place.
    pub fn symbol(&self, place: u16) -> &[u8; SYMBOL]
        requires { place < length self.now }
        ensures value { result.now ≡ slice_index_or self.now place [] }
        ensures sector { IsSector result.now }
    {
        &self.symbols[usize::from(place)]
    }

    /// Puts these bytes at this place; all other symbols stay.
    pub fn put(&mut self, place: u16, bytes: &[u8; SYMBOL])
        requires { place < length self.old }
        ensures { self.new ≡ slice_set self.old place bytes.now }
    {
        self.symbols[usize::from(place)] = *bytes;
    }

    /// Makes the symbols at the places `into` sums of those at other places, each times its factor: the d-th by the factors
    /// from number d·width on. All other symbols stay.
    pub(crate) fn sum_up(&mut self, into: &[u16], from: &[u16], by: &[Factor], width: usize)
        requires width { length from.now ≤ width }
        requires factors { length into.now * width ≤ length by.now }
        requires apart { AreApart (length self.old) into.now from.now }
        ensures { SetsSums self.old self.new into.now from.now by.now width }
    {
        sums(&mut self.symbols, into, from, by, width);
    }
}
