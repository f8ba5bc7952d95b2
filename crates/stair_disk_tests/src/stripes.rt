//! Stripes and redos of an array of four devices with one row parity, two rows, one global parity and three stripes.
//! Cell (i, j) has number 4·i + j.

ghost use Rattle.std.specs.Prelude.{◌≡◌, ◌<◌, ℕ};
ghost use Rattle.stair_journal.specs.Redo.{IsRedo};
ghost use Rattle.stair_model.specs.CellSet.{HasCell, IsCellSet};
ghost use Rattle.stair_model.specs.Stripe.{IsStripeOf};

use stair_base::{CellSet, Geometry, SECTOR, Stripe};
use stair_journal::Redo;
use std::process::Abort;

/// The geometry of the array.
pub fn geometry<R: Abort>(rt: &R) -> Geometry
    ensures slots { result.n ≡ 4 }
    ensures rows { result.r ≡ 2 }
    ensures stripes { result.stripes ≡ 3 }
{
    Geometry::new(4, 1, 2, &[1], 3, [0; 16]).expect(rt, "a geometry")
}

/// The cells whose bits are set, by number, the lowest first.
pub fn cells(bits: u8) -> CellSet
    ensures inside { (i j : ℕ) → HasCell result i j → (i < 2) × (j < 4) }
    ensures formed { IsCellSet result }
{
    let mut cells = CellSet::empty();
    for number in 0..8 {
        if bits >> number & 1 == 1 {
            cells.add(number / 4, number % 4);
        }
    }
    cells
}

/// A redo of stripe 2 with cell 0 and the cells whose bits are set.
pub fn redo_of(geometry: &Geometry, bits: u8) -> Redo
    requires slots { geometry.now.n ≡ 4 }
    requires rows { geometry.now.r ≡ 2 }
    requires stripes { geometry.now.stripes ≡ 3 }
    ensures { IsRedo geometry.now result }
{
    let mut redone = cells(bits);
    redone.add(0, 0);
    Redo {
        stripe: 2,
        cells: redone,
    }
}

/// A stripe whose cells are each filled with their number, from `first` on.
pub fn numbered<R: Abort + AllocGlobal>(rt: &R, geometry: &Geometry, first: u8) -> Stripe
    ensures { IsStripeOf geometry.now result }
{
    let mut stripe = Stripe::new(rt.alloc(), geometry).expect(rt, "memory");
    for row in 0..geometry.r() {
        for slot in 0..geometry.n() {
            let number = 4 * (row % 2) + slot % 4;
            stripe.put(row, slot, &[first.wrapping_add(number); SECTOR]);
        }
    }
    stripe
}
