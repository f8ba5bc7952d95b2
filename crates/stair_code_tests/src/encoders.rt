ghost use Rattle.std.specs.Prelude.{◌≡◌, ◌<◌, IfOk};
ghost use Rattle.stair_model.specs.CellSet.{IsInStripe};
ghost use Rattle.stair_model.specs.Geometry.{data_cells};
ghost use Rattle.stair_model.specs.Stripe.{IsStripeOf};

use stair_base::{CellSet, Geometry, Kind, NotCovered, SECTOR, Stripe, StripeCode};
use stair_codec::{By, Codec};
use stair_gf::Steps;
use stair_std::Generator;
use std::alloc::{AllocError, Global};
use std::marker::Brand;
use std::process::Abort;
use std::sync::ledger::{Blank, Ledger};
use std::test::Fail;

// The bytes of erased cells, and of parities that are not computed yet.
const JUNK: [u8; SECTOR] = [0xA5; SECTOR];

// A codeword of eight devices with two row parities, four rows and coverage 1, 1, 2, row by row, each cell filled with its
// byte. It was worked out elsewhere from the equations.
const CODEWORD: [u8; 32] = [
    0xC8, 0xD9, 0x0C, 0x61, 0xD8, 0x71, 0x49, 0x4F, 0x23, 0x34, 0x67, 0xBC, 0x33, 0xCC, 0x60, 0x11,
    0x7E, 0x8F, 0xC2, 0x17, 0x8E, 0xD7, 0xB6, 0x9E, 0xD9, 0xEA, 0x1D, 0x6E, 0xA8, 0x7D, 0xDE, 0x0E,
];

// The codeword with junk in the erased cells, and these: bit j of entry i is set where cell (i, j) is one of them.
fn damaged(
    alloc: Global,
    geometry: &Geometry,
    rows: [u32; 4],
) -> Result<(Stripe, CellSet), AllocError>
    ensures of { IfOk result (λ damaged. IsStripeOf geometry.now damaged.0) }
    ensures cells { IfOk result (λ damaged. IsInStripe geometry.now damaged.1) }
{
    let mut stripe = Stripe::new(alloc, geometry)?;
    let mut erased = CellSet::empty();
    for row in 0..geometry.r() {
        let bits = rows.get(usize::from(row)).copied().unwrap_or(0);
        for slot in 0..geometry.n() {
            let number = usize::from(row) * usize::from(geometry.n()) + usize::from(slot);
            let byte = CODEWORD.get(number).copied().unwrap_or(0);
            stripe.put(row, slot, &[byte; SECTOR]);
            if bits >> slot & 1 == 1 {
                stripe.put(row, slot, &JUNK);
                erased.add(row, slot);
            }
        }
    }
    Ok((stripe, erased))
}

fn same_cells(geometry: &Geometry, a: &Stripe, b: &Stripe) -> bool
    requires first { IsStripeOf geometry.now a.now }
    requires second { IsStripeOf geometry.now b.now }
{
    for row in 0..geometry.r() {
        for slot in 0..geometry.n() {
            if *a.cell(row, slot) != *b.cell(row, slot) {
                return false;
            }
        }
    }
    true
}

// Encodes the stripe, sets its blocks one by one, and compares it with `want`, which is encoded whole each time.
fn compare<L: Ledger>(
    rt: &impl Abort,
    blank: Blank,
    code: &mut Codec,
    stripe: &mut Stripe,
    want: &mut Stripe,
)
    requires name { blank.name ≡ L.name }
    requires parts { blank.parts ≡ L.parts }
    requires some { 0 < L.parts }
    requires of { IsStripeOf code.old.geometry stripe.old }
    requires want_of { IsStripeOf code.old.geometry want.old }
{
    let geometry = code.geometry();
    let mut steps = Steps::<L>::new(blank);
    code.encode(stripe, &mut steps);
    assert!(rt; same_cells(&geometry, stripe, want));
    for row in 0..geometry.r() {
        for slot in 0..geometry.n() {
            if let Kind::Block(number) = geometry.kind(row, slot) {
                let block = [(number % 256) as u8; SECTOR];
                code.update(stripe, row, slot, &block, &mut steps);
                want.put(row, slot, &block);
                code.encode(want, &mut steps);
                assert!(rt; same_cells(&geometry, stripe, want), "block {number}");
            }
        }
    }
}

#[test]
fn each_encoder_gives_the_known_stripe(rt: HostRuntime) -> Result<(), Fail> {
    let geometry = Geometry::new(8, 2, 4, &[1, 1, 2], 1, [0; 16])?;
    for by in [By::Standard, By::Upstairs, By::Downstairs, By::Fewest] {
        let mut codec = Codec::new(rt.alloc(), &geometry, by)?;
        let (mut stripe, _) = damaged(rt.alloc(), &geometry, [0xC0, 0xC0, 0xE0, 0xF8])?;
        let (mut want, _) = damaged(rt.alloc(), &geometry, [0; 4])?;
        compare::<Brand>(&rt, Blank::new(1), &mut codec, &mut stripe, &mut want);
    }
    Ok(())
}

#[test]
fn covered_cells_come_back(rt: HostRuntime) -> Result<(), Fail> {
    let geometry = Geometry::new(8, 2, 4, &[1, 1, 2], 1, [0; 16])?;
    for (rows, want) in [
        // 4, 4, 2, 1 and 1 cells of five chunks, in slot order and in another one
        ([0x1F, 0x07, 0x03, 0x03], Ok(())),
        ([0x34, 0x25, 0xA4, 0x34], Ok(())),
        // one cell more, and a cell of each of six chunks
        ([0x1F, 0x0F, 0x03, 0x03], Err(NotCovered)),
        ([0x07, 0, 0, 0x38], Err(NotCovered)),
    ] {
        let mut codec = Codec::new(rt.alloc(), &geometry, By::Downstairs)?;
        let (mut stripe, erased) = damaged(rt.alloc(), &geometry, rows)?;
        assert_eq!(rt; codec.restore(&mut stripe, &erased), want, "{rows:?}");
        let left = if want.is_ok() { [0; 4] } else { rows };
        let (want, _) = damaged(rt.alloc(), &geometry, left)?;
        assert!(rt; same_cells(&geometry, &stripe, &want), "{rows:?}");
    }
    Ok(())
}

// Goes on with a hash (Fowler, Noll and Vo's FNV-1a, of 32 bits).
fn hash_on(hash: u32, byte: u8) -> u32 {
    (hash ^ u32::from(byte)).wrapping_mul(0x0100_0193)
}

// Goes on over all cells: the factor of each over this block, and whether it is among the dependents.
fn hash_cells(
    hash: u32,
    generator: &Generator,
    geometry: &Geometry,
    number: u16,
    dependents: &CellSet,
) -> u32
    requires same { generator.now.geometry ≡ geometry.now }
    requires number_in { number < data_cells geometry.now }
{
    let mut hash = hash;
    for row in 0..geometry.r() {
        for slot in 0..geometry.n() {
            hash = hash_on(hash, generator.factor(number, row, slot));
            hash = hash_on(hash, u8::from(dependents.has(row, slot)));
        }
    }
    hash
}

fn hash_blocks(generator: &Generator, code: &Codec) -> u32
    requires { generator.now.geometry ≡ code.now.geometry }
{
    let geometry = code.geometry();
    let mut hash = 0x811C_9DC5;
    for row in 0..geometry.r() {
        for slot in 0..geometry.n() {
            if let Kind::Block(number) = geometry.kind(row, slot) {
                let dependents = code.dependents(row, slot);
                hash = hash_cells(hash, generator, &geometry, number, &dependents);
            }
        }
    }
    hash
}

// The steps of the standard encoder and the hashes are those of tests/tools/factors, which works them out from the equations; the
// steps of both others were counted by their formulas. The last geometry has as many chunks and rows as there may be.
#[test]
fn dependents_factors_and_steps_of_known_geometries(rt: HostRuntime) -> Result<(), Fail> {
    let cases: [(u64, u64, u64, &[u64], [u64; 3], u32); 4] = [
        (4, 1, 2, &[1], [13, 15, 14], 0xC714_1C21),
        (8, 2, 4, &[1, 1, 2], [165, 120, 136], 0xD9EB_1F25),
        (16, 2, 16, &[1, 1, 2], [2058, 952, 1184], 0xC748_98FF),
        (32, 3, 32, &[1, 2, 4], [19022, 6699, 5792], 0x43AA_DB24),
    ];
    for (n, m, r, e, costs, hash) in cases {
        let geometry = Geometry::new(n, m, r, e, 1, [0; 16])?;
        let generator = Generator::new(rt.alloc(), &geometry)?;
        let ways = [By::Standard, By::Upstairs, By::Downstairs];
        for (by, cost) in ways.into_iter().zip(costs) {
            let codec = Codec::new(rt.alloc(), &geometry, by)?;
            assert_eq!(rt; codec.cost(), cost, "{by:?} {n}");
            assert_eq!(rt; hash_blocks(&generator, &codec), hash, "{by:?} {n}");
        }
    }
    Ok(())
}
