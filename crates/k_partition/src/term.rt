//! Partition terms.

use affine_form::{Matrix, Multipliers};
use domain_count::{Nest, Sums};
use poly_tree::Poly;
use reuse_paths::{Credit, Family};

/// How the labels of a partition term's families are counted in a stretch of moves.
#[derive(Clone, Copy, Debug)]
pub enum Shape {
    /// Each family may hold as many labels as words are red or come.
    Each,
    /// All families together may, since no two of them have a word in common.
    Sum,
}

/// A partition term (Hong and Kung 1981, by labels of reused words). Its points are the instances of the statement in the
/// nest; `inside` shows that they are instances. The rows of the matrix, which has the inverse that stands beside it, are
/// coordinates of the loop values; the sets of the families cover each of them `q` times. A stretch has `a` times s and `b`
/// events more where s words are red at most; the points of the credits aren't counted against their computations. Where the
/// shape is `Sum`, `apart` shows that no two families have a word in common.
#[derive(Debug, Drop)]
pub struct Partition {
    pub statement: u16,
    pub nest: Nest,
    pub sums: Sums,
    pub inside: Vec<Multipliers>,
    pub matrix: Matrix,
    pub inverse: Matrix,
    pub q: u8,
    pub shape: Shape,
    pub a: u8,
    pub b: u32,
    pub credits: Vec<Credit>,
    pub families: Vec<Family>,
    pub apart: Vec<Multipliers>,
}

/// What bounds a partition term's loads from below: the counts of its points and of its credits' points; `a`, `b` and `q` of
/// the term; the sum `m` of its families' weights; and the factor with which the labels of a stretch count, as a numerator
/// and a denominator: 1 where the shape is `Each`, and else the product of the powers of the weights with themselves over
/// the power of `m` with itself.
#[derive(Debug, Drop)]
pub struct PartitionBound {
    pub count: Poly,
    pub credits: Poly,
    pub a: u8,
    pub b: u32,
    pub q: u8,
    pub m: u8,
    pub num: u128,
    pub den: u128,
}
