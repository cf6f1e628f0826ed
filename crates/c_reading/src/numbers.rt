//! The numbers of affine expressions.

ghost use Rattle.std.specs.Prelude.{◌≡◌, ◌≤◌, ◌^◌, ◌+ℤ◌, ◌*ℤ◌, ◌-ℤ◌, unsigned_abs, IfOk, option_map};
ghost use Rattle.std.specs.List.{list_all};
ghost use Rattle.c_tokens.specs.Bytes.{is_digit};
ghost use Rattle.c_reading.specs.Numbers.{if_small, single, zeros, small_number, plus_times, pushed, combined, constant_of, value_from, is_integer};
ghost use Rattle.iolb_model.specs.declared.limits.TheConstants.{NUMBER_SIZE};

use iolb_model::limits::{LOOPS, NUMBER_SIZE, PARAMETERS};
use std::alloc::{AllocError, Global};

/// How many numbers an expression has.
const WIDTH: usize = 1 + PARAMETERS + LOOPS;

/// The numbers of one variable, or of a constant.
pub(crate) fn single(alloc: Global, slot: usize, n: i32) -> Result<Vec<i32>, AllocError>
    ensures { IfOk result (λ numbers. numbers.items ≡ single slot n) }
{
    let mut numbers = vec![in alloc; 0; WIDTH]?;
    if slot < WIDTH {
        numbers[slot] = n;
    }
    Ok(numbers)
}

/// The numbers of 0.
pub(crate) fn zeros(alloc: Global) -> Result<Vec<i32>, AllocError>
    ensures { IfOk result (λ numbers. numbers.items ≡ zeros) }
{
    vec![in alloc; 0; WIDTH]
}

/// The product.
fn times(k: i32, y: i32) -> i64
    ensures value { result ≡ k *ℤ y }
    ensures size { unsigned_abs result ≤ 2 ^ 62 }
{
    i64::from(k) * i64::from(y)
}

/// x + product less this much.
fn offset(x: i32, product: i64, less: i32) -> i64
    requires { unsigned_abs product ≤ 2 ^ 62 }
    ensures { result ≡ (x +ℤ product) -ℤ less }
{
    i64::from(x) + product - i64::from(less)
}

/// The number, where it is small.
fn if_small(n: i64) -> Option<i32>
    ensures { result ≡ if_small n }
{
    if u128::from(n.unsigned_abs()) < NUMBER_SIZE {
        Some(n as i32)
    } else {
        None
    }
}

/// x + k*y less this much, where it is small.
#[tactic(auto, unfolding(crate::specs::Numbers::small_number))]
fn small_number(k: i32, less: i32, x: i32, y: i32) -> Option<i32>
    ensures { result ≡ small_number k less x y }
{
    if_small(offset(x, times(k, y), less))
}

/// Adds the numbers of a + k*b, where all are small.
#[tactic(auto, using(crate::proofs::Sizes::number_pushed))]
fn push_numbers(numbers: &mut Vec<i32>, k: &i32, a: &[i32], b: &[i32]) -> Result<bool, AllocError>
    ensures { IfOk result (λ all. pushed all numbers.old.items numbers.new.items (plus_times k.now a.now b.now)) }
{
    let mut xs = a;
    let mut ys = b;
    loop {
        let Some((x, behind_x)) = xs.split_first() else {
            return Ok(true);
        };
        let Some((y, behind_y)) = ys.split_first() else {
            return Ok(true);
        };
        let Some(n) = small_number(*k, 0, *x, *y) else {
            return Ok(false);
        };
        numbers.push(n)?;
        xs = behind_x;
        ys = behind_y;
    }
}

/// a + k*b, less this much on the first number, where all its numbers are small.
pub(crate) fn combined(
    alloc: Global,
    k: i32,
    less: i32,
    a: &[i32],
    b: &[i32],
) -> Result<Option<Vec<i32>>, AllocError>
    ensures { IfOk result (λ found. option_map (λ numbers. numbers.items) found ≡ combined k less a.now b.now) }
{
    let Some((x, xs)) = a.split_first() else {
        return Ok(Some(Vec::new(alloc)));
    };
    let Some((y, ys)) = b.split_first() else {
        return Ok(Some(Vec::new(alloc)));
    };
    let Some(n) = small_number(k, less, *x, *y) else {
        return Ok(None);
    };
    let mut numbers = Vec::new(alloc);
    numbers.push(n)?;
    if push_numbers(&mut numbers, &k, xs, ys)? {
        Ok(Some(numbers))
    } else {
        Ok(None)
    }
}

/// The constant.
pub(crate) fn constant_of(numbers: &[i32]) -> i32
    ensures { result ≡ constant_of numbers.now }
{
    match numbers.split_first() {
        Some((n, _)) => *n,
        None => 0,
    }
}

fn is_digit(b: u8) -> bool
    ensures { result ≡ is_digit b }
{
    b'0' <= b && b <= b'9'
}

/// Whether there are digits alone.
fn are_digits(bytes: &[u8]) -> bool
    ensures { result ≡ list_all is_digit bytes.now }
{
    for b in bytes {
        if !is_digit(*b) {
            return false;
        }
    }
    true
}

/// Whether there are digits alone, without a leading 0 unless it is 0.
pub(crate) fn is_integer(bytes: &[u8]) -> bool
    ensures { result ≡ is_integer bytes.now }
{
    match bytes {
        [] => false,
        [b] => is_digit(*b),
        [b, ..] => *b != b'0' && are_digits(bytes),
    }
}

/// The value of digits, or a number that isn't small.
pub(crate) fn value(bytes: &[u8]) -> u32
    ensures value { result ≡ value_from 0 bytes.now }
    ensures limit { result ≤ NUMBER_SIZE }
{
    let mut n: u32 = 0;
    for b in bytes {
        n = (10 * n + u32::from(b.saturating_sub(b'0'))).min(NUMBER_SIZE as u32);
    }
    n
}
