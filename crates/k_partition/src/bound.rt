//! The numbers of a partition term's bound.

ghost use Rattle.std.specs.Prelude.{◌≡◌, ◌≤◌, ◌*◌, ◌^◌, map, sum_by};
ghost use Rattle.k_partition.specs.Numbers.{HasNumbers};
ghost use Rattle.k_partition.specs.TermLoads.{weight_of};
ghost use Rattle.k_partition.specs.View.{partition_of};
ghost use Rattle.reuse_paths.specs.declared.family.Family.{Family as family};
ghost use Rattle.uniform_cover.specs.Products.{product_by};
ghost use Rattle.iolb_model.specs.declared.limits.TheConstants.{WEIGHTS};

use crate::term::{Partition, PartitionBound, Shape};
use poly_tree::Poly;
use reuse_paths::Family;

/// The bound of a term with these counts of its points and of its credits' points.
pub(crate) fn bound_of(term: &Partition, count: Poly, credits: Poly) -> PartitionBound
    requires { weight_of (partition_of term.now) ≤ WEIGHTS }
    ensures count { result.count ≡ count }
    ensures credits { result.credits ≡ credits }
    ensures numbers { HasNumbers (partition_of term.now) result }
{
    let families = term.families.as_slice();
    let m = weight_of(families);
    let (num, den) = match term.shape {
        Shape::Each => (1, 1),
        Shape::Sum => (powers_of(families), own_power(m)),
    };
    PartitionBound {
        count,
        credits,
        a: term.a,
        b: term.b,
        q: term.q,
        m,
        num,
        den,
    }
}

/// The sum of the weights of a term's families.
pub fn weight_of(families: &[Family]) -> u8
    requires { sum_by (λ (f : family). f.weight) families.now ≤ WEIGHTS }
    ensures { result ≡ sum_by (λ (f : family). f.weight) families.now }
{
    let mut sum = 0;
    for family in families {
        sum += family.weight;
    }
    sum
}

/// The product of the powers of the weights with themselves.
fn powers_of(families: &[Family]) -> u128
    requires { sum_by (λ (f : family). f.weight) families.now ≤ WEIGHTS }
    ensures { result ≡ product_by (λ (f : family). f.weight ^ f.weight) families.now }
{
    let mut product = 1;
    for family in families {
        product *= own_power(family.weight);
    }
    product
}

/// The power of a number with itself, 1 for 0.
fn own_power(n: u8) -> u128
    requires { n ≤ WEIGHTS }
    ensures { result ≡ n ^ n }
{
    let mut power = 1;
    for _i in 0..n {
        power *= u128::from(n);
    }
    power
}
