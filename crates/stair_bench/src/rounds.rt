ghost use Rattle.std.specs.Prelude.{◌≡◌, ◌-◌, ◌<◌, ◌≤◌, IfOk, length};
ghost use Rattle.std.specs.List.{range_with_len};
ghost use Rattle.stair_model.specs.CauchyCode.{AreKnownPlaces};
ghost use Rattle.stair_mds.specs.Solving.{AreWantedPlaces};

use crate::arrays::check_of_creating;
use crate::check::{check_of, check_of_blocks};
use crate::counting::Calls;
use crate::encoding::{check_of_copying_cells, check_of_encoding, check_of_updating};
use crate::fault::Fault;
use crate::kernel::{Code, FileWork, Kernel, StripeWork};
use crate::layout::Layout;
use crate::many::{check_of_encoding_many, check_of_restoring_many};
use crate::redo::check_of_redoing;
use crate::restoring::check_of_restoring;
use crate::sectors::{
    check_of_reading, check_of_sealing, check_of_sealing_by_eight, check_of_writing,
    check_of_writing_all,
};
use crate::varied::varied;
use crate::writes::check_of_block_writes;
use stair_base::SECTOR;
use stair_filerack::Lock;
use stair_gf::{Steps, mul_add};
use stair_mds::{Mds, Symbols};
use std::alloc::{AllocError, Global};
use std::fs::Files;
use std::marker::Brand;
use std::sync::ledger::{Blank, Ledger};

/// The result of rounds of a kernel.
pub(crate) enum Made {
    /// Something with this check.
    Check(u64),
    /// Cells or blocks with this check, by so many calls.
    Redone(u64, Calls),
}

/// Runs so many rounds of the kernel.
pub(crate) fn make_rounds<F: Files + Drop>(
    rt: F,
    alloc: Global,
    kernel: Kernel,
    rounds: u32,
) -> Result<Made, Fault>
where
    F::File: Lock,
{
    match kernel {
        Kernel::MultiplyAdd => Ok(Made::Check(check_of_adding(rounds))),
        Kernel::Solve(row) => made_in_memory(check_of_solving::<Brand>(
            alloc,
            row.code(),
            rounds,
            Blank::new(1),
        )),
        Kernel::CopySymbols(row) => made_in_memory(check_of_copying(alloc, row.code(), rounds)),
        Kernel::Stripe(work, layout) => {
            made_in_memory(check_of_stripe_work(alloc, work, layout, rounds))
        }
        Kernel::SealSectors => made_in_memory(check_of_sealing(alloc, rounds)),
        Kernel::SealSectorsByEight => made_in_memory(check_of_sealing_by_eight(alloc, rounds)),
        Kernel::Files(work) => make_on_files(rt, alloc, work, rounds),
    }
}

/// Returns a check of so many rounds of this work on a stripe.
fn check_of_stripe_work(
    alloc: Global,
    work: StripeWork,
    layout: Layout,
    rounds: u32,
) -> Result<u64, AllocError> {
    let geometry = layout.geometry();
    let steps = Blank::new(1);
    match work {
        StripeWork::Encode(by) => check_of_encoding::<Brand>(alloc, by, &geometry, rounds, steps),
        StripeWork::Restore => check_of_restoring::<Brand>(alloc, &geometry, 1, rounds, steps),
        StripeWork::RestoreInTurn => {
            check_of_restoring::<Brand>(alloc, &geometry, geometry.n(), rounds, steps)
        }
        StripeWork::EncodeMany(by) => {
            check_of_encoding_many::<Brand>(alloc, by, &geometry, rounds, steps)
        }
        StripeWork::RestoreMany => {
            check_of_restoring_many::<Brand>(alloc, &geometry, rounds, steps)
        }
        StripeWork::Update => check_of_updating::<Brand>(alloc, &geometry, rounds, steps),
        StripeWork::CopyCells => check_of_copying_cells(alloc, &geometry, rounds),
    }
}

/// Runs so many rounds of this work on image files.
fn make_on_files<F: Files + Drop>(
    rt: F,
    alloc: Global,
    work: FileWork,
    rounds: u32,
) -> Result<Made, Fault>
where
    F::File: Lock,
{
    match work {
        FileWork::WriteSectors => made_on_files(check_of_writing(rt, alloc, rounds)),
        FileWork::ReadSectors => made_on_files(check_of_reading(rt, alloc, rounds)),
        FileWork::WriteAll(devices) => {
            made_on_files(check_of_writing_all(rt, alloc, devices.count(), rounds))
        }
        FileWork::CreateArray => made_on_files(check_of_creating(rt, alloc, rounds)),
        FileWork::Redo(layout) => made_by_calls(check_of_redoing::<F, Brand>(
            rt,
            alloc,
            &layout.geometry(),
            rounds,
            Blank::new(1),
        )),
        FileWork::WriteBlocks(part, layout) => made_by_calls(check_of_block_writes(
            rt,
            alloc,
            &layout.geometry(),
            part,
            rounds,
        )),
    }
}

/// Returns the result of work in memory, or out of memory.
fn made_in_memory(check: Result<u64, AllocError>) -> Result<Made, Fault> {
    Ok(Made::Check(check?))
}

/// Returns the result of work on image files.
fn made_on_files(check: Result<u64, Fault>) -> Result<Made, Fault> {
    Ok(Made::Check(check?))
}

/// Returns the result of calls on image files.
fn made_by_calls(made: Result<(u64, Calls), Fault>) -> Result<Made, Fault> {
    let (check, calls) = made?;
    Ok(Made::Redone(check, calls))
}

/// Adds multiples of a symbol to another, by each byte in turn, so many times. Adds one more multiple, with which all of them
/// sum to twice that symbol.
fn check_of_adding(rounds: u32) -> u64 {
    let from = varied(1);
    let mut into = [0; SECTOR];
    let mut lacking = 2;
    for round in 0..rounds {
        let by = (round % 256) as u8;
        mul_add(&mut into, &from, by);
        lacking ^= by;
    }
    mul_add(&mut into, &from, lacking);
    check_of_blocks(&[into])
}

/// Solves every parity from all held symbols, so many times.
fn check_of_solving<L: Ledger>(
    alloc: Global,
    code: Code,
    rounds: u32,
    blank: Blank,
) -> Result<u64, AllocError>
    requires name { blank.name ≡ L.name }
    requires parts { blank.parts ≡ L.parts }
    requires some { 0 < L.parts }
{
    let held = u16::from(code.n - code.m);
    let total = u16::from(code.n + 1);
    let mut mds = Mds::row(alloc, code.n, code.m, 1)?;
    let known = places(alloc, 0, held)?;
    let wanted = places(alloc, held, total)?;
    let mut work = symbols_of(alloc, held, total)?;
    solve_rounds::<L>(&mut mds, &known, &wanted, &mut work, rounds, blank);
    Ok(check_of(&work, held, total))
}

/// Solves the wanted symbols from the known ones, so many times.
fn solve_rounds<L: Ledger>(
    mds: &mut Mds,
    known: &[u16],
    wanted: &[u16],
    work: &mut Symbols,
    rounds: u32,
    blank: Blank,
)
    requires name { blank.name ≡ L.name }
    requires parts { blank.parts ≡ L.parts }
    requires some { 0 < L.parts }
    requires known { AreKnownPlaces mds.old.shape.held mds.old.shape.total known.now }
    requires wanted { AreWantedPlaces mds.old.shape known.now wanted.now }
    requires work { length work.old ≡ mds.old.shape.total }
    ensures { length work.new ≡ length work.old }
{
    let mut steps = Steps::<L>::new(blank);
    for _round in 0..rounds {
        mds.solve(known, wanted, work, &mut steps);
    }
}

/// Copies all held symbols, so many times.
fn check_of_copying(alloc: Global, code: Code, rounds: u32) -> Result<u64, AllocError> {
    let held = u16::from(code.n - code.m);
    let from = symbols_of(alloc, held, held)?;
    let mut into = Symbols::new(alloc, held)?;
    for _round in 0..rounds {
        for place in 0..held {
            into.put(place, from.symbol(place));
        }
    }
    Ok(check_of(&into, 0, held))
}

/// Returns the places from `first` up to `end`.
fn places(alloc: Global, first: u16, end: u16) -> Result<Vec<u16>, AllocError>
    requires { first ≤ end }
    ensures { IfOk result (λ places. places.items ≡ range_with_len first (end - first)) }
{
    (first..end).collect(alloc)
}

/// Returns the symbols of a code: the bytes of held symbol p vary with number p, and all others are zero.
fn symbols_of(alloc: Global, held: u16, total: u16) -> Result<Symbols, AllocError>
    requires within { held ≤ total }
    requires few { total ≤ 256 }
    ensures { IfOk result (λ symbols. length symbols ≡ total) }
{
    let mut symbols = Symbols::new(alloc, total)?;
    for place in 0..held {
        symbols.put(place, &varied(place));
    }
    Ok(symbols)
}
