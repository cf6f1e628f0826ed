//! What is read is within the limits.

ghost use Rattle.joint_text.specs.Joint.{JointsAreWithinLimits};

/// A law: a joint term that was read is within the limits of joint terms: one that claims what is written within the limits of texts,
/// as all is that a text says.
pub fn joints_are_within_limits()
    ensures { JointsAreWithinLimits }
{}
