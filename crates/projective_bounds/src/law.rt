//! What follows of certificates of projective programs.

ghost use Rattle.projective_bounds.specs.Laws.{CertifiedAreAccepted, CertifiedHaveLeastExponents, CoversInReachHaveLeast};

/// The term of the first branch has the least exponent of all rational covers.
pub fn certified_have_least_exponents()
    ensures { CertifiedHaveLeastExponents }
{}

/// Where some cover of a projective program's loops is in reach, so is a least one.
pub fn covers_in_reach_have_least()
    ensures { CoversInReachHaveLeast }
{}

/// No condition fails.
pub fn certified_are_accepted()
    ensures { CertifiedAreAccepted }
{}
