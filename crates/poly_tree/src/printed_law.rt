//! What the terms in the order in which they are printed have to do with the tree.

ghost use Rattle.poly_tree.specs.Printed.{TermsAreInOrder, TermsHaveTheValue};

/// A polynomial's terms in the order in which they are printed have the tree's value, over the denominator, at every
/// point of whole numbers.
pub fn terms_have_the_value()
    ensures { TermsHaveTheValue }
{}

/// A polynomial's terms stand by falling total degree, ties by falling exponent of the first variable, then the second,
/// and so on.
pub fn terms_are_in_order()
    ensures { TermsAreInOrder }
{}
