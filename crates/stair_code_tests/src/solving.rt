ghost use Rattle.std.specs.Prelude.{◌≡◌, ◌≢◌, ℕ, ◌<◌, ◌≤◌, IfOk, All, Contains, length, slice_index, true, false};
ghost use Rattle.stair_model.specs.CauchyCode.{AreDistinct, AreKnownPlaces};
ghost use Rattle.stair_mds.specs.Solving.{AreWantedPlaces};

use stair_gf::Steps;
use stair_mds::{Mds, SYMBOL, Symbols};
use std::alloc::{AllocError, Global};
use std::marker::Brand;
use std::process::Abort;
use std::sync::ledger::{Blank, Ledger};
use std::test::Fail;

// Whether the place is one of the first of these, up to `end`.
fn is_among(places: &[u16], end: usize, place: u16) -> bool
    requires { end ≤ length places.now }
    ensures { result ≡ false → (k : ℕ) → k < end → slice_index places.now k ≢ place }
{
    for k in 0..end {
        if places[k] == place {
            return true;
        }
    }
    false
}

// Whether all places lie below the total, none of them twice.
fn are_places(total: usize, places: &[u16]) -> bool
    ensures below { result ≡ true → All (λ p. p < total) places.now }
    ensures distinct { result ≡ true → AreDistinct (length places.now) (slice_index places.now) }
{
    for i in 0..places.len() {
        if usize::from(places[i]) >= total || is_among(places, i, places[i]) {
            return false;
        }
    }
    true
}

// Whether none of the wanted places is known.
fn are_unknown(known: &[u16], wanted: &[u16]) -> bool
    ensures { result ≡ true → All (λ p. Contains known.now p → ⊥) wanted.now }
{
    for i in 0..wanted.len() {
        if is_among(known, known.len(), wanted[i]) {
            return false;
        }
    }
    true
}

// Solves on this ledger, and once more by the pattern that is prepared then.
fn solve<L: Ledger>(blank: Blank, code: &mut Mds, known: &[u16], wanted: &[u16], work: &mut Symbols)
    requires name { blank.name ≡ L.name }
    requires parts { blank.parts ≡ L.parts }
    requires some { 0 < L.parts }
    requires known { AreKnownPlaces code.old.shape.held code.old.shape.total known.now }
    requires wanted { AreWantedPlaces code.old.shape known.now wanted.now }
    requires count { length work.old ≡ code.old.shape.total }
    ensures { length work.new ≡ length work.old }
{
    let mut steps = Steps::<L>::new(blank);
    code.solve(known, wanted, work, &mut steps);
    if code.prepared() {
        code.apply(work, &mut steps);
    }
}

// The symbols of a codeword, each filled with its byte, but for the wanted ones.
fn filled(alloc: Global, codeword: &[u8], wanted: &[u16]) -> Result<Symbols, AllocError>
    requires { length codeword.now ≤ 64 }
    ensures { IfOk result (λ work. length work ≡ length codeword.now) }
{
    let mut work = Symbols::new(alloc, codeword.len() as u16)?;
    for place in 0..codeword.len() {
        if !wanted.contains(&(place as u16)) {
            work.put(place as u16, &[codeword[place]; SYMBOL]);
        }
    }
    Ok(work)
}

// Solves the wanted places of the codeword from the known ones, after a look at them, and compares all symbols.
fn compare(
    rt: &impl Abort,
    alloc: Global,
    code: &mut Mds,
    codeword: &[u8],
    known: &[u16],
    wanted: &[u16],
) -> Result<(), AllocError>
    requires few { length codeword.now ≤ 64 }
    requires total { code.old.shape.total ≡ length codeword.now }
    requires held { code.old.shape.held ≡ length known.now }
{
    assert!(rt; are_places(codeword.len(), known));
    assert!(rt; are_places(codeword.len(), wanted));
    assert!(rt; are_unknown(known, wanted));
    let mut work = filled(alloc, codeword, wanted)?;
    solve::<Brand>(Blank::new(1), code, known, wanted, &mut work);
    for place in 0..codeword.len() {
        let want = [codeword[place]; SYMBOL];
        assert!(rt;
            *work.symbol(place as u16) == want,
            "{place} of {codeword:?}"
        );
    }
    Ok(())
}

// Solved elsewhere from the equations.
#[test]
fn known_codewords(rt: HostRuntime) -> Result<(), Fail> {
    let four = [0x01, 0x00, 0x00, 0xF4, 0x47];
    let mut row = Mds::row(rt.alloc(), 4, 1, 1)?;
    compare(&rt, rt.alloc(), &mut row, &four, &[0, 1, 2], &[3, 4])?;
    let eight = [
        0x07, 0x24, 0x41, 0x5E, 0x7B, 0x98, 0xA4, 0xE6, 0x2A, 0x05, 0xC8,
    ];
    let mut row = Mds::row(rt.alloc(), 8, 2, 3)?;
    compare(
        &rt,
        rt.alloc(),
        &mut row,
        &eight,
        &[10, 8, 7, 6, 4, 2],
        &[5, 0, 9],
    )?;
    let chunk = [0x07, 0x3C, 0x71, 0xA6, 0x67, 0xC6];
    let mut column = Mds::column(rt.alloc(), 4, 2)?;
    compare(&rt, rt.alloc(), &mut column, &chunk, &[5, 0, 4, 2], &[3, 1])?;
    Ok(())
}
