//! The uniform cover inequality over projections.

ghost use Rattle.uniform_cover.specs.Projection.{ProjectionInequality};

/// The uniform cover inequality (Loomis and Whitney, 1949; Bollobás and Thomason, 1995) of a finite set
/// of points with d coordinates: where each coordinate lies in sets of total weight at least q, and q is
/// at least 1, the q-th power of the number of points is at most the product of the sizes of their
/// projections on the sets, each raised to the set's weight.
pub fn projection_inequality()
    ensures { ProjectionInequality }
{}
