//! The greatest numbers that the uniform cover inequality allows.

use std::test::Fail;
use uniform_cover::{Wide, greatest_u};

#[test]
fn greatest_numbers_are_known(rt: HostRuntime) -> Result<(), Fail> {
    assert_eq!(rt; greatest_u(2, 27, 1, 48, 3), Ok(64));
    assert_eq!(rt; greatest_u(2, 27, 1, 47, 3), Ok(62));
    assert_eq!(rt; greatest_u(1, 1, 1, 1, 1), Ok(1));
    assert_eq!(rt; greatest_u(12, 4096, 1, 1, 1), Ok(1));
    assert_eq!(rt; greatest_u(1, 1, 1, 1 << 64, 2), Err(Wide));
    assert_eq!(rt; greatest_u(3, 3125, 4, 20, 5), Ok(16));
    assert_eq!(rt; greatest_u(2, 1, 1, 48, 3), Ok(332));
    Ok(())
}
