//! Sizes of polynomials, capped so that they never leave 128 bits.

ghost use Rattle.std.specs.Prelude.{◌≡◌, ◌*◌, ◌^◌, ◌≤◌, min};
ghost use Rattle.iolb_model.specs.declared.limits.TheConstants.{MEASURE};

use iolb_model::limits;

/// The product of two numbers, or 2^126 if that is less.
pub(crate) fn capped_product(a: u128, b: u128) -> u128
    ensures { result ≡ min (a * b) MEASURE }
{
    a.saturating_mul(b).min(limits::MEASURE)
}

/// A number times a power of another of at least 1, or 2^126 if that is less.
pub(crate) fn capped_power(number: u128, base: u128, exponent: usize) -> u128
    requires { 1 ≤ base }
    ensures { min result MEASURE ≡ min (number * base ^ exponent) MEASURE }
{
    let mut product = number;
    for _ in 0..exponent {
        product = capped_product(product, base);
    }
    product
}
