//! The numbers of a joint term's bound.

ghost use Rattle.std.specs.Prelude.{◌≡◌, ℕ, ◌==◌, ◌≤◌, ◌*◌, ◌^◌, length, cond, sum_by};
ghost use Rattle.std.specs.List.{AllByRecursion, range_with_len};
ghost use Rattle.joint_partition.specs.JointLoads.{HasJointNumbers, IsLowest};
ghost use Rattle.joint_partition.specs.JointNumbers.{FitsNumbers, group_weight};
ghost use Rattle.joint_partition.specs.View.{joint_of};
ghost use Rattle.joint_partition.specs.declared.limits.TheConstants.{GROUPS, JOINT_WEIGHTS, LABELINGS};
ghost use Rattle.joint_partition.specs.declared.term.JointFamily.{JointFamily as family};
ghost use Rattle.k_partition.specs.Numbers.{numbers_of};
ghost use Rattle.uniform_cover.specs.Products.{product_by};

use crate::limits::GROUPS;
use crate::term::{Joint, JointFamily};
use k_partition::PartitionBound;
use poly_tree::{Poly, gcd};

/// The bound of a term with these counts of its images and of its credits' points. Its numerator and denominator are in lowest
/// terms.
pub(crate) fn joint_bound_of(term: &Joint, count: Poly, credits: Poly) -> PartitionBound
    requires { FitsNumbers (joint_of term.now) }
    ensures count { result.count ≡ count }
    ensures credits { result.credits ≡ credits }
    ensures numbers { HasJointNumbers (joint_of term.now) (numbers_of result) }
{
    let families = term.families.as_slice();
    let m = weight_of(families);
    let over = labelings_factor(families) * weights_factor(families);
    let (num, den) = lowest_terms(over, own_power(m));
    PartitionBound {
        count,
        credits,
        a: term.a,
        b: term.b,
        q: term.q,
        m,
        num,
        den,
    }
}

/// The sum of the weights of a term's families.
fn weight_of(families: &[JointFamily]) -> u8
    requires { sum_by (λ (f : family). f.weight) families.now ≤ JOINT_WEIGHTS }
    ensures { result ≡ sum_by (λ (f : family). f.weight) families.now }
{
    let mut sum = 0;
    for family in families {
        sum += family.weight;
    }
    sum
}

/// The product of the numbers of the families' labelings, each raised to the family's weight.
fn labelings_factor(families: &[JointFamily]) -> u128
    requires light { sum_by (λ (f : family). f.weight) families.now ≤ JOINT_WEIGHTS }
    requires few { AllByRecursion (λ (f : family). length f.labels.items ≤ LABELINGS) families.now }
    ensures { result ≡ product_by (λ (f : family). length f.labels.items ^ f.weight) families.now }
{
    let mut product = 1;
    for family in families {
        product *= labelings_power(family);
    }
    product
}

/// The number of a family's labelings, raised to its weight.
fn labelings_power(family: &JointFamily) -> u128
    requires light { family.now.weight ≤ JOINT_WEIGHTS }
    requires few { length family.now.labels.items ≤ LABELINGS }
    ensures { result ≡ length family.now.labels.items ^ family.now.weight }
{
    let size = family.labels.len() as u128;
    size.pow(u32::from(family.weight))
}

/// The product of the weights of the groups, each raised to itself: 1 for a group without families.
fn weights_factor(families: &[JointFamily]) -> u128
    requires { sum_by (λ (f : family). f.weight) families.now ≤ JOINT_WEIGHTS }
    ensures { result ≡ product_by (λ (number : ℕ). group_weight families.now number ^ group_weight families.now number) (range_with_len 0 GROUPS) }
{
    let mut product = 1;
    for number in 0..GROUPS {
        product *= own_power(weight_in(families, number));
    }
    product
}

/// The sum of the weights of a group's families.
fn weight_in(families: &[JointFamily], number: u8) -> u8
    requires { sum_by (λ (f : family). f.weight) families.now ≤ JOINT_WEIGHTS }
    ensures sum { result ≡ group_weight families.now number }
    ensures light { result ≤ JOINT_WEIGHTS }
{
    let mut sum = 0;
    for family in families {
        if family.group == number {
            sum += family.weight;
        }
    }
    sum
}

/// The power of a number with itself, 1 for 0.
fn own_power(n: u8) -> u128
    requires { n ≤ JOINT_WEIGHTS }
    ensures { result ≡ n ^ n }
{
    u128::from(n).pow(u32::from(n))
}

/// A fraction in lowest terms.
fn lowest_terms(over: u128, under: u128) -> (u128, u128)
    requires { 1 ≤ under }
    ensures { IsLowest over under result.0 result.1 }
{
    let common = gcd(over, under);
    (over / common, under / common)
}
