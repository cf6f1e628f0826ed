//! The uniform cover inequality in whole-number powers: how many points there can be where families
//! of labels fix their coordinates.

ghost use Rattle.std.specs.Prelude.{ℕ, ℤ, List, nat_eq};
ghost use Rattle.uniform_cover.specs.Cover.{CoverInequality, CoverBoundEach, CoverBoundSum, CoverInequalityEach, CoverInequalitySum};

/// The uniform cover inequality (Loomis and Whitney, 1949; Bollobás and Thomason, 1995) over labels. The
/// points are numbered, such as vertices of a graph, each with d coordinates that tell it apart. A family
/// is a weighted set of coordinates, a label of each point which fixes the coordinates in the set, and any
/// list that has the label of each point. Where each coordinate lies in sets of total weight at least q,
/// and q is at least 1, the q-th power of the number of points is at most the product of the lengths of
/// the families' lists, each raised to the family's weight.
pub fn cover_inequality()
    ensures { CoverInequality ℕ ℤ (List ℤ) nat_eq }
{}

/// Where no family lists more than k labels, the q-th power of the number of points is at most k raised
/// to the sum M of the weights. So there are at most as many points as `greatest_u(q, 1, 1, k, M)` says.
pub fn cover_inequality_each()
    ensures powers { CoverInequalityEach ℕ ℤ (List ℤ) nat_eq }
    ensures points { CoverBoundEach ℕ ℤ (List ℤ) nat_eq }
{}

/// Where the families list at most k labels together, the q-th power of the number of points, times `M^M`,
/// is at most the product W of the weights, each raised to itself, times `k^M`, where M is the sum of the
/// weights. So there are at most as many points as `greatest_u(q, M^M, W, k, M)` says.
pub fn cover_inequality_sum()
    ensures powers { CoverInequalitySum ℕ ℤ (List ℤ) nat_eq }
    ensures points { CoverBoundSum ℕ ℤ (List ℤ) nat_eq }
{}
