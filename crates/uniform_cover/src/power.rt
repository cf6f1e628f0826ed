//! Powers that fit 128 bits.

ghost use Rattle.std.specs.Prelude.{◌≡◌, ◌*◌, ◌^◌, ◌<◌, ◌≤◌};
ghost use Rattle.std.specs.Option.{SomeIff};

/// `factor * base^exponent`, or None where that needs more than 128 bits.
pub(crate) fn scaled_power(factor: u128, base: u128, exponent: u32) -> Option<u128>
    requires { 1 ≤ base }
    ensures { SomeIff result (factor * base ^ exponent < 2 ^ 128) (factor * base ^ exponent) }
{
    let mut product = factor;
    for _ in 0..exponent {
        product = product.checked_mul(base)?;
    }
    Some(product)
}
