//! The greatest number whose scaled power stays within a scaled power.

ghost use Rattle.std.specs.Prelude.{◌≡◌, ℕ, ◌+◌, ◌*◌, ◌^◌, ◌<◌, ◌≤◌, ◌↔◌, IsTrue, IsErr, IfOk};
ghost use Rattle.uniform_cover.specs.Greatest.{IsGreatest};

use crate::power::scaled_power;

/// A product has reached 2^127.
#[derive(Clone, Copy, Debug, PartialEq, Eq)]
pub struct Wide;

/// Products from here on are wide.
const LIMIT: u128 = 1 << 127;

/// The greatest u with `u^q * den <= num * k^m`, and at least 1; Wide exactly where `num * k^m`
/// reaches 2^127. A number of points that the cover inequality allows is at most this. It takes
/// at most 127 steps of halving, each of up to q products, and no memory.
pub fn greatest_u(q: u32, den: u128, num: u128, k: u128, m: u32) -> Result<u128, Wide>
    requires q_positive { 1 ≤ q }
    requires den_positive { 1 ≤ den }
    requires k_positive { 1 ≤ k }
    ensures greatest { IfOk result (λ u. IsGreatest q den (num * k ^ m) u) }
    ensures wide { IsErr result ↔ (2 ^ 127 ≤ num * k ^ m) }
{
    match scaled_power(num, k, m) {
        Some(top) if top < LIMIT => Ok(greatest_within(q, den, top)),
        _ => Err(Wide),
    }
}

/// Whether `u^q * den <= top`.
fn is_within(q: u32, den: u128, top: u128, u: u128) -> bool
    requires { 1 ≤ u }
    ensures { IsTrue result ↔ (u ^ q * den ≤ top) }
{
    match scaled_power(den, u, q) {
        Some(product) => product <= top,
        None => false,
    }
}

/// The greatest u with `u^q * den <= top`, and at least 1, found by halving.
fn greatest_within(q: u32, den: u128, top: u128) -> u128
    requires q_positive { 1 ≤ q }
    requires den_positive { 1 ≤ den }
    requires top_range { top < 2 ^ 127 }
    ensures { IsGreatest q den top result }
{
    let mut low = 1;
    let mut high = top + 1;
    while low + 1 < high {
        let middle = low + (high - low) / 2;
        if is_within(q, den, top, middle) {
            low = middle;
        } else {
            high = middle;
        }
    }
    low
}
