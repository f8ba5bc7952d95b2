// Compares the compiled products with the compiled plain ones.
ghost use Rattle.std.specs.Prelude.{◌≡◌, ◌<◌, ◌≤◌, length};

use stair_gf::{Factor, SYMBOL, inv, mul, mul_add, mul_add_plain, mul_plain, sums};
use stair_mds::numbers_from;
use std::process::Abort;
use std::test::Fail;

#[test]
fn all_products(rt: HostRuntime) {
    for a in 0..=255u8 {
        for b in 0..=255u8 {
            assert_eq!(rt; mul(a, b), mul_plain(a, b), "at {a} and {b}");
        }
        if a > 0 {
            assert_eq!(rt; mul_plain(a, inv(a)), 1, "at {a}");
        }
    }
}

#[test]
fn multiples_of_all_lengths(rt: HostRuntime) {
    let mut from = [0u8; 137];
    for k in 0..137usize {
        from[k] = (k * 89 % 256) as u8;
    }
    for by in 0..=255u8 {
        for length in 0..=130usize {
            let mut lanes = [by; 137];
            let mut plain = [by; 137];
            mul_add(&mut lanes[3..3 + length], &from[5..5 + length], by);
            mul_add_plain(&mut plain[3..3 + length], &from[5..5 + length], by);
            assert!(rt; lanes == plain, "by {by}, {length} bytes");
        }
    }
}

// 39 symbols of different bytes.
fn symbols() -> [[u8; SYMBOL]; 39] {
    let mut symbols = [[0; SYMBOL]; 39];
    for place in 0..39usize {
        for k in 0..SYMBOL {
            symbols[place][k] = ((place * 89 + k * 7) % 256) as u8;
        }
    }
    symbols
}

// The factor of symbol `i` in sum `d`.
fn factor(d: usize, i: usize) -> u8
    requires sum { d < 7 }
    requires symbol { i < 32 }
{
    ((d * 59 + i * 7 + 3) % 256) as u8
}

// Compares the first symbols, as sums of those from the eighth on, with the plain sums.
fn compare_sums(rt: &impl Abort, wanted: usize, known: usize, factors: &[Factor])
    requires wanted { wanted ≤ 7 }
    requires known { known ≤ 32 }
    requires factors { length factors.now ≡ 224 }
{
    let (into, from) = (numbers_from(0), numbers_from(7));
    let before = symbols();
    let mut after = before;
    sums(&mut after, &into[..wanted], &from[..known], factors, 32);
    for d in 0..wanted {
        let mut plain = [0; SYMBOL];
        for i in 0..known {
            mul_add_plain(&mut plain, &before[7 + i], factor(d, i));
        }
        assert!(rt;
            after[d] == plain,
            "sum {d} of {wanted}, of {known} symbols"
        );
    }
    assert!(rt;
        after[wanted..] == before[wanted..],
        "beside {wanted} sums of {known} symbols"
    );
}

#[test]
fn up_to_7_sums_of_up_to_32_multiples(rt: HostRuntime) -> Result<(), Fail> {
    let mut factors = Vec::with_capacity(rt.alloc(), 224)?;
    for d in 0..7usize {
        for i in 0..32usize {
            factors.push(Factor::new(factor(d, i)))?;
        }
    }
    for wanted in 0..=7usize {
        for known in 0..=32usize {
            compare_sums(&rt, wanted, known, &factors);
        }
    }
    Ok(())
}
