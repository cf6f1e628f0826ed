//! Rows of the table of sums of powers (Faulhaber, 1631), in lowest terms.

use power_sums::{Row, power_sum};
use std::test::Fail;

#[test]
fn power_sums_are_known(rt: HostRuntime) -> Result<(), Fail> {
    let known = [
        (2, [0, 1, 3, 2, 0, 0, 0, 0], 6),
        (4, [0, -1, 0, 10, 15, 6, 0, 0], 30),
        (5, [0, 0, -1, 0, 5, 6, 2, 0], 12),
    ];
    for (power, num, den) in known {
        assert_eq!(rt; power_sum(power), Some(Row { num, den }), "at {power}");
    }
    assert_eq!(rt; power_sum(6), None);
    Ok(())
}
