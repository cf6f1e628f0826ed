//! The mean inequality in whole-number powers, and two inequalities that follow from it.

ghost use Rattle.uniform_cover.specs.Mean.{MeanInequality, SuperadditiveStep, WeightedMeanInequality};

/// `k^k` times the product of k whole numbers is at most the k-th power of their sum: the inequality
/// of the arithmetic and the geometric mean without roots or fractions.
pub fn mean_inequality()
    ensures { MeanInequality }
{}

/// The step of the proof of the cover inequality: where `c^k` is within a scaled product of k factors,
/// and `e^k` within the product of k others at the same scale, `(c + e)^k` is within the product of
/// the factors' sums at that scale.
pub fn superadditive_step()
    ensures { SuperadditiveStep }
{}

/// `M^M` times the product of the `x_j^m_j` is at most the product of the `m_j^m_j` times the M-th power
/// of the sum of the `x_j`, where M is the sum of the weights `m_j`.
pub fn weighted_mean_inequality()
    ensures { WeightedMeanInequality }
{}
