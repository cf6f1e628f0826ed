//! That certificates with the opening branch are accepted.

ghost use Rattle.find_terms.specs.Accepted.{OpeningsAreWithinLimits, OpeningsMeetConditions};

/// A law: source trees that fit a program and are valid make, with the opening branch alone, a certificate that meets all
/// conditions, where the trees of the branch's own reads are plain; and one that is within the limits of certificates,
/// where all trees are.
pub fn openings_are_accepted()
    ensures conditions { OpeningsMeetConditions }
    ensures limits { OpeningsAreWithinLimits }
{}
