//! Sums and products of 128 bits.

ghost use Rattle.std.specs.Prelude.{◌≡◌, ◌+◌, ◌*◌, ◌^◌, ◌<◌, ◌+ℤ◌, ◌*ℤ◌, unsigned_abs};

/// A sum and one product more.
pub fn add_product(sum: i128, x: i128, y: i128) -> i128
    requires { unsigned_abs sum + unsigned_abs x * unsigned_abs y < 2 ^ 127 }
    ensures { result ≡ sum +ℤ (x *ℤ y) }
{
    let product = x * y;
    sum + product
}

/// A sum and the product of a matrix's entry and a number more.
pub fn add_entry(sum: i128, entry: i32, number: i128) -> i128
    requires { unsigned_abs sum + unsigned_abs entry * unsigned_abs number < 2 ^ 127 }
    ensures { result ≡ sum +ℤ (entry *ℤ number) }
{
    add_product(sum, i128::from(entry), number)
}
