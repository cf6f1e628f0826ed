//! What right claims of a nest's number of points say.

ghost use Rattle.domain_count.specs.Count.{FirstVariablesAreCounted, RightClaimsCount};
ghost use Rattle.domain_count.specs.Exact.{RightClaimsGiveOne};
ghost use Rattle.domain_count.specs.Points.{PointsArePartedByFront};

/// A law: the polynomial that right claims give counts the nest's points, at all parameter values that meet the
/// program's assumptions. A sum between bounds of an antidifference's differences telescopes, where the upper end isn't
/// more than 1 below the lower.
pub fn right_claims_count()
    ensures { RightClaimsCount }
{}

/// A law: right claims give one polynomial.
pub fn right_claims_give_one()
    ensures { RightClaimsGiveOne }
{}

/// A law: a nest's points are those over each point of its first variables, however many these are.
pub fn points_are_parted()
    ensures { PointsArePartedByFront }
{}

/// A law: where a nest's ranges are whole, what other polynomials sum over its first variables counts their points.
pub fn first_variables_are_counted()
    ensures { FirstVariablesAreCounted }
{}
