//! How many points a joint term has.

ghost use Rattle.joint_partition.specs.JointCounts.{JointPointsAreCounted};

use domain_count::law::right_claims_count;

/// A law: where what is claimed of a term's points holds, the sums of the polynomials have, at all admitted
/// parameter values of any size, the number of its images and that of its credited points, and are over the parameters.
pub fn joint_points_are_counted()
    ensures { JointPointsAreCounted }
{
    right_claims_count();
}
