//! How many steps standard encoding takes.

ghost use Rattle.std.specs.Prelude.{◌≡◌, ◌<◌};
ghost use Rattle.stair_model.specs.Stripe.{IsStripeOf, IsWellFormed};

use crate::stripes::data_rows;
use stair_base::{Geometry, SECTOR, Stripe};
use stair_canon::Canon;
use stair_gf::Steps;
use stair_up::encode_upstairs;
use std::sync::ledger::{Blank, Ledger};

/// Returns how many steps standard encoding takes: how many coefficients of the parities over the data cells aren't zero.
///
/// Byte positions of a stripe don't touch each other. So a stripe of which each data cell is 1 at a byte position of its own,
/// and else zero, has the coefficients over that cell at this position once it is encoded. Cells are taken 512 at once.
pub(crate) fn standard_steps<L: Ledger>(blank: Blank, canon: &mut Canon, stripe: &mut Stripe) -> u64
    requires name { blank.name ≡ L.name }
    requires parts { blank.parts ≡ L.parts }
    requires some { 0 < L.parts }
    requires of { IsStripeOf canon.old.geometry stripe.old }
    ensures geometry { canon.new.geometry ≡ canon.old.geometry }
{
    let geometry = canon.geometry();
    let cells = usize::from(geometry.n()) * usize::from(geometry.r());
    let mut steps = Steps::<L>::new(blank);
    let mut count = 0;
    for part in 0..cells.div_ceil(SECTOR) {
        put_units(&geometry, stripe, part);
        encode_upstairs(canon, stripe, &mut steps);
        count = nonzero_bytes(&geometry, stripe, count);
    }
    count
}

/// Fills the data cells: those of this part of 512 cells are 1 at a byte position each, and all other bytes are zero.
fn put_units(geometry: &Geometry, stripe: &mut Stripe, part: usize)
    requires { IsStripeOf geometry.now stripe.old }
    ensures { IsStripeOf geometry.now stripe.new }
{
    for slot in 0..geometry.n() {
        for row in 0..data_rows(geometry, slot) {
            let number = usize::from(slot) * usize::from(geometry.r()) + usize::from(row);
            stripe.put(row, slot, &unit(number, part));
        }
    }
}

/// Returns the bytes of the data cell with this number.
fn unit(number: usize, part: usize) -> [u8; SECTOR] {
    let mut bytes = [0; SECTOR];
    if number / SECTOR == part {
        bytes[number % SECTOR] = 1;
    }
    bytes
}

/// Returns `count` and how many bytes of the parities aren't zero.
fn nonzero_bytes(geometry: &Geometry, stripe: &Stripe, count: u64) -> u64
    requires { IsStripeOf geometry.now stripe.now }
{
    let mut count = count;
    for slot in 0..geometry.n() {
        for row in data_rows(geometry, slot)..geometry.r() {
            for byte in stripe.cell(row, slot) {
                if *byte != 0 {
                    count = count.saturating_add(1);
                }
            }
        }
    }
    count
}
