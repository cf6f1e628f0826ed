//! The table of the sums of powers.

ghost use Rattle.std.specs.Prelude.{◌≡◌, ◌<◌, ◌↔◌, IsSome, IfSome};
ghost use Rattle.power_sums.specs.PowerSum.{IsPowerSum};

/// A polynomial in n with rational coefficients, of degree below L: that of `n^e` is `num[e] / den`.
#[derive(Clone, Copy, Debug, PartialEq, Eq)]
pub struct Row<const L: usize> {
    pub num: [i64; L],
    pub den: i64,
}

/// A row from its numbers, the constant one first, over its denominator.
macro_rules! row {
    ([$($num:expr),*] / $den:expr) => { Row { num: [$($num),*], den: $den } };
}

/// How many powers the table has, from 0 on.
pub const ROW_COUNT: usize = 6;

/// Row d is the sum of `i^d` for i from 1 to n (Faulhaber, 1631), in lowest terms.
const ROWS: [Row<8>; ROW_COUNT] = [
    row!([0, 1, 0, 0, 0, 0, 0, 0] / 1),
    row!([0, 1, 1, 0, 0, 0, 0, 0] / 2),
    row!([0, 1, 3, 2, 0, 0, 0, 0] / 6),
    row!([0, 0, 1, 2, 1, 0, 0, 0] / 4),
    row!([0, -1, 0, 10, 15, 6, 0, 0] / 30),
    row!([0, 0, -1, 0, 5, 6, 2, 0] / 12),
];

/// The sum of `i^d` for i from 1 to n, as a polynomial in n; None exactly for d past the table.
pub fn power_sum(d: usize) -> Option<Row<8>>
    ensures present { IsSome result ↔ (d < ROW_COUNT) }
    ensures sum { IfSome result (λ row. IsPowerSum d row.num row.den) }
{
    ROWS.get(d).copied()
}
