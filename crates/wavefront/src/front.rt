//! Wavefront terms.

use crate::cold::Inverse;
use affine_form::Multipliers;
use domain_count::{Nest, Sums};
use poly_tree::Poly;
use reuse_paths::{Leaf, Reach, Spot};

/// A wavefront term (Elango et al. 2014, by loads alone). Its nest's points are called u, and their first `outer`
/// variables t. For each u there is a word that is there when the vertex of t is computed, and a user that reads the word
/// and isn't computed before: the user is the vertex, or a walk back from it (`back`) arrives at the vertex; the word is an
/// input where there is no `source`, and else the source, at which a walk back from the vertex (`reach`) arrives. The
/// matrix turns the word's subscripts or loop values back into a number times u.
#[derive(Debug, Drop)]
pub struct Wavefront {
    pub nest: Nest,
    pub outer: u8,
    pub sums: Sums,
    pub outer_sums: Vec<Poly>,
    pub vertex: Spot,
    pub user: Spot,
    pub read: u16,
    pub source: Option<Spot>,
    pub inside: Vec<Multipliers>,
    pub inverse: Inverse,
    pub edge: Vec<Leaf>,
    pub reach: Option<Reach>,
    pub back: Reach,
}
