//! That reads of inputs are plain, and what is known of certificates that are made for matrix products.

ghost use Rattle.find_terms.specs.InputReads.{InputReadsArePlain, OpeningTermsCountProducts};
ghost use Rattle.find_terms.specs.Products.{OneProductIsCertified, ProductsHaveOpenings};

use std::alloc::Global;

/// A law: a read of an array that no statement writes, whose subscripts name different loops, is plain, where no guard stands around
/// its statement and the loops around it run upward from 0 to below parameters that are assumed to be at least 1.
pub fn input_reads_are_plain(_alloc: Global)
    ensures { InputReadsArePlain }
{}

/// A law: where the loops around a statement run so, under guards or not, the opening term of a read counts the product of the
/// parameters of the loops that the read's subscripts name.
pub fn opening_terms_count_products()
    ensures { OpeningTermsCountProducts }
{}

/// A law: the first branch of a certificate that is made for two matrix products or more isn't wide at matrices of 64 by 64 numbers,
/// with 64 red pebbles, and is worth at least 4096 times the lesser of 16 and twice the number of products.
pub fn products_have_openings(_alloc: Global)
    ensures { ProductsHaveOpenings }
{}

/// A law: a certificate that is made for one matrix product is that of a projective program, and no branch of it is wide there.
pub fn one_product_is_certified()
    ensures { OneProductIsCertified }
{}
