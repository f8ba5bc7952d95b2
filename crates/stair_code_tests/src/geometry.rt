use stair_base::{Broken, CellSet, Geometry, SECTOR, Stripe, first_broken};
use std::test::Fail;

#[test]
fn geometry_names_the_first_broken_limit(rt: HostRuntime) {
    const MAX: u64 = u64::MAX;
    let cases: [(u64, u64, u64, &[u64], u64, Option<u8>); 16] = [
        (3, 1, 1, &[1], 1, None),
        (32, 1, 32, &[1], 4_096, None),
        (4, 1, 2, &[1], 65_536, None),
        (33, 1, 2, &[1], 1, Some(1)),
        (4, 0, 2, &[1], 1, Some(2)),
        (4, 2, 2, &[1], 1, Some(3)),
        (4, 1, 2, &[1, 1, 1, 1], 1, Some(4)),
        (4, 1, 33, &[1], 1, Some(5)),
        (5, 1, 2, &[2, 1], 1, Some(6)),
        (4, 1, 2, &[3], 1, Some(6)),
        (3, 1, 1, &[1, 1], 1, Some(7)),
        (32, 1, 32, &[1], 4_097, Some(8)),
        (4, 1, 2, &[1], 65_537, Some(8)),
        // two limits at once: the first one is named
        (4, 2, 2, &[], 1, Some(3)),
        (4, 1, 33, &[2, 1], 1, Some(5)),
        (MAX, MAX, MAX, &[MAX], MAX, Some(1)),
    ];
    for (n, m, r, e, stripes, want) in cases {
        let limit = Geometry::new(n, m, r, e, stripes, [0; 16])
            .err()
            .map(|fault| fault.limit);
        assert_eq!(rt; limit, want, "{n} {m} {r} {e:?} {stripes}");
    }
}

// Of a device with four chunks of one row 3 + 4 + stripes sectors are needed, and of one with 32 chunks of 32 rows
// 3 + 1,024 + 32 stripes. A small geometry has at most 65,536 stripes and 4,194,304 cells.
#[test]
fn large_geometries_end_where_their_sectors_have_no_number(rt: HostRuntime) {
    const MAX: u64 = u64::MAX;
    // whether it is a small one, or the first broken limit
    let cases: [(u64, u64, u64, &[u64], u64, Result<bool, u8>); 16] = [
        (4, 1, 2, &[1], 0, Err(8)),
        (4, 1, 2, &[1], 1, Ok(true)),
        (4, 1, 2, &[1], 65_536, Ok(true)),
        (4, 1, 2, &[1], 65_537, Ok(false)),
        (32, 1, 32, &[1], 4_096, Ok(true)),
        (32, 1, 32, &[1], 4_097, Ok(false)),
        (32, 1, 32, &[1], 134_217_695, Ok(false)),
        (32, 1, 32, &[1], 134_217_696, Err(8)),
        (4, 1, 1, &[1], 4_294_967_288, Ok(false)),
        (4, 1, 1, &[1], 4_294_967_289, Err(8)),
        // twice as many, or 32 times, are 0 in 64 bits
        (4, 1, 2, &[1], 1 << 63, Err(8)),
        (32, 1, 32, &[1], 1 << 59, Err(8)),
        (4, 1, 2, &[1], MAX, Err(8)),
        (33, 1, 2, &[1], MAX, Err(1)),
        (4, 1, 33, &[1], MAX, Err(5)),
        (4, 1, 2, &[3], MAX, Err(6)),
    ];
    for (n, m, r, e, stripes, want) in cases {
        let answer = Geometry::large(n, m, r, e, stripes, [0; 16]);
        let answer = answer
            .map(|geometry| geometry.is_small())
            .map_err(|fault| fault.limit);
        assert_eq!(rt; answer, want, "{n} {m} {r} {e:?} {stripes}");
    }
}

// Worked by hand: a stripe has four cells in one row, of which the first two are blocks.
#[test]
fn the_last_stripe_of_the_largest_array(rt: HostRuntime) -> Result<(), Fail> {
    let geometry = Geometry::large(4, 1, 1, &[1], 4_294_967_288, [0; 16])?;
    assert_eq!(rt; geometry.need(), 4_294_967_295);
    assert_eq!(rt; geometry.blocks(), 8_589_934_576);
    assert_eq!(rt; geometry.cell_sector(0, 0), 7);
    assert_eq!(rt; geometry.cell_sector(4_294_967_287, 0), 4_294_967_294);
    let place = geometry.place_of(8_589_934_575);
    assert_eq!(rt;
        (place.stripe, place.row, place.slot),
        (4_294_967_287, 0, 1)
    );
    Ok(())
}

#[test]
fn cells_of_a_stripe_and_of_two_sets(rt: HostRuntime) -> Result<(), Fail> {
    let geometry = Geometry::new(4, 1, 2, &[1], 3, [0; 16])?;
    let cells = geometry.cells();
    assert_eq!(rt; cells.count(), 8);
    assert!(rt; cells.has(0, 0) && cells.has(1, 3) && !cells.has(2, 0) && !cells.has(0, 4));
    let mut one = CellSet::empty();
    one.add(0, 1);
    one.add(31, 31);
    let mut other = CellSet::empty();
    other.add(0, 1);
    other.add(31, 30);
    let both = one.union(&other);
    assert_eq!(rt; both.count(), 3);
    assert!(rt; both.has(0, 1) && both.has(31, 31) && both.has(31, 30));
    assert_eq!(rt; both, other.union(&one));
    Ok(())
}

// Worked by hand: 1/3 is F4, and the global parity g meets (1/3)(1/6)·g = (1/2)(1/4), so g is 46.
#[test]
fn first_broken_equations_of_known_stripes(rt: HostRuntime) -> Result<(), Fail> {
    let geometry = Geometry::new(4, 1, 2, &[1], 3, [0; 16])?;
    let mut stripe = Stripe::new(rt.alloc(), &geometry)?;
    assert_eq!(rt; first_broken(&geometry, &stripe), None);
    stripe.put(0, 0, &[0x01; SECTOR]);
    let broken = first_broken(&geometry, &stripe);
    assert_eq!(rt;
        broken,
        Some(Broken::Row {
            row: 0,
            parity: 0,
            byte: 0
        })
    );
    stripe.put(0, 3, &[0xF4; SECTOR]);
    let broken = first_broken(&geometry, &stripe);
    assert_eq!(rt;
        broken,
        Some(Broken::Global {
            l: 0,
            h: 0,
            byte: 0
        })
    );
    stripe.put(1, 2, &[0x46; SECTOR]);
    stripe.put(1, 3, &[0x46; SECTOR]);
    assert_eq!(rt; first_broken(&geometry, &stripe), None);
    // the global equation is broken too: the row equation comes first
    let mut bytes = [0x46; SECTOR];
    bytes[511] = 0x00;
    stripe.put(1, 2, &bytes);
    let broken = first_broken(&geometry, &stripe);
    assert_eq!(rt;
        broken,
        Some(Broken::Row {
            row: 1,
            parity: 0,
            byte: 511
        })
    );
    Ok(())
}
