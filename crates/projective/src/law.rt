//! What the weights of a least cover are good for.

ghost use Rattle.projective.specs.Exponent.{LeastCoversHaveLeastExponents};

/// A law: the weights of a least cover and its denominator have the least exponent of all rational covers.
pub fn least_covers_have_least_exponents()
    ensures { LeastCoversHaveLeastExponents }
{}
