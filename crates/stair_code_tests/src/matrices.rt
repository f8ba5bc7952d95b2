use stair_cauchy::Matrix;
use std::test::Fail;

// The inverses of 1 to 7 are 01 8E F4 47 A7 7A BA.
#[test]
fn known_matrix(rt: HostRuntime) -> Result<(), Fail> {
    let matrix = Matrix::cauchy(rt.alloc(), &[3, 4], &[0, 1, 2])?;
    assert_eq!(rt; matrix.at(0, 0), 0xF4);
    assert_eq!(rt; matrix.at(0, 1), 0x8E);
    assert_eq!(rt; matrix.at(0, 2), 0x01);
    assert_eq!(rt; matrix.at(1, 0), 0x47);
    assert_eq!(rt; matrix.at(1, 1), 0xA7);
    assert_eq!(rt; matrix.at(1, 2), 0x7A);
    Ok(())
}
