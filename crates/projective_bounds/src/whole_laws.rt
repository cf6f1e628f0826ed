//! What is shown of the terms of whole domains.

ghost use Rattle.projective_bounds.specs.WholeLaws.{WholeTermsAreAsAsked, WholeTermsAreSmall, WholeTermsFit, WholeTermsHold};

/// All that the term of a projective program's whole domain claims holds, over source trees that keep the loops, for a cover
/// whose arrays are read.
pub fn whole_terms_hold()
    ensures { WholeTermsHold }
{}

/// It fits the program and the source trees.
pub fn whole_terms_fit()
    ensures { WholeTermsFit }
{}

/// What certificates ask of it holds, wherever it stands.
pub fn whole_terms_are_as_asked()
    ensures { WholeTermsAreAsAsked }
{}

/// It is within the limits of certificates.
pub fn whole_terms_are_small()
    ensures { WholeTermsAreSmall }
{}
