ghost use Rattle.std.specs.Prelude.{◌≡◌, ℕ, ◌+◌, ◌*◌, ◌<◌, ◌≤◌, length, slice_index};
ghost use Rattle.stair_mds.specs.Solving.{along};

use crate::coefficients::MAX_HELD;

/// Where the places of a code lie among symbols: place p at symbol start + step·p.
///
/// Of a table of symbols, row by row, a row is a line of step 1, and a column is one whose step is the
/// length of a row.
#[derive(Clone, Copy)]
pub struct Line {
    pub start: u16,
    pub step: u16,
}

impl Line {
    /// The number of the symbol at which this place lies, which fits.
    #[inline(always)]
    pub fn symbol(self, place: u16) -> u16
        requires { along self place < 65536 }
        ensures { result ≡ along self place }
    {
        self.start + self.step * place
    }

    /// The symbols at which these places lie, of which there are as many as a code holds at most.
    pub(crate) fn symbols(self, places: &[u16]) -> [u16; MAX_HELD]
        requires few { length places.now ≤ 32 }
        requires within { (i : ℕ) → i < length places.now →
            along self (slice_index places.now i) < 65536 }
        ensures count { length result ≡ 32 }
        ensures each { (i : ℕ) → i < length places.now →
            slice_index result i ≡ along self (slice_index places.now i) }
    {
        let mut symbols = [0; MAX_HELD];
        for (i, place) in places.iter().enumerate() {
            symbols[i] = self.symbol(*place);
        }
        symbols
    }
}
