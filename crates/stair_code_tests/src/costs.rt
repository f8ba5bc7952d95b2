use stair_base::Geometry;
use stair_plan::plan;
use std::test::Fail;

// The steps of standard encoding, and the least and the greatest penalty, are those of tests/tools/factors, which works them out
// from the equations; the steps of the other encoders were counted by hand from their formulas.
#[test]
fn plans_of_known_geometries(rt: HostRuntime) -> Result<(), Fail> {
    let four = plan(rt.alloc(), &Geometry::new(4, 1, 2, &[1], 1, [0; 16])?)?;
    assert_eq!(rt;
        four.text().bytes(),
        b"blocks 5 of 8\nsteps up 15 down 14 standard 13 fewest standard\npenalty least 2 greatest 3 sum 13\n".as_slice()
    );
    let eight = plan(rt.alloc(), &Geometry::new(8, 2, 4, &[1, 1, 2], 9, [7; 16])?)?;
    assert_eq!(rt;
        eight.text().bytes(),
        b"blocks 20 of 32\nsteps up 120 down 136 standard 165 fewest up\npenalty least 5 greatest 10 sum 165\n".as_slice()
    );
    Ok(())
}
