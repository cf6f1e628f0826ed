//! Polynomials, printed.

ghost use Rattle.std.specs.Prelude.{◌≡◌, ◌++◌, codes, decimal, map, IfOk};
ghost use Rattle.iolb_model.specs.Printed.{terms_text, polynomial_text};
ghost use Rattle.poly_tree.specs.Printed.{named_term, AreNonzero, polynomial_of};

use crate::flatten::terms_of_tree;
use crate::poly::Poly;
use crate::print_order::in_print_order;
use crate::product_text::product_text;
use crate::term::Term;
use affine_form::{Memory, Name, TermsText};
use std::alloc::Global;

impl Poly {
    /// The printed form, with a name for each variable; variables past the names aren't printed. Terms stand by falling
    /// total degree, ties by falling exponent of the first variable, then the second, and so on. A denominator above 1
    /// stands behind: `(N^2 - N)/2`.
    pub fn text(&self, alloc: Global, names: &[Name]) -> Result<Vec<u8>, Memory>
        ensures { IfOk result (λ text. text.items ≡ polynomial_text names.now (polynomial_of self.now)) }
    {
        let terms = in_print_order(alloc, terms_of_tree(alloc, self.tree())?)?;
        let sum = sum_text(alloc, names, terms.as_slice())?;
        if self.den() == 1 {
            return Ok(sum);
        }
        quotient_text(alloc, sum.as_slice(), self.den().unsigned_abs())
    }
}

/// A sum of terms, none with coefficient 0.
fn sum_text(alloc: Global, names: &[Name], terms: &[Term]) -> Result<Vec<u8>, Memory>
    requires { AreNonzero terms.now }
    ensures { IfOk result (λ text. text.items ≡ terms_text (map (named_term names.now) terms.now)) }
{
    let mut sum = TermsText::new(alloc);
    for term in terms {
        let product = product_text(alloc, names, term.exponents.as_slice())?;
        sum = sum.with_term(alloc, term.coefficient, product.as_slice())?;
    }
    sum.finish()
}

/// A sum over a denominator.
fn quotient_text(alloc: Global, sum: &[u8], denominator: u128) -> Result<Vec<u8>, Memory>
    ensures { IfOk result (λ text. text.items ≡ codes "(" ++ sum.now ++ codes ")/" ++ decimal denominator) }
{
    let mut text = Vec::from_slice(alloc, b"(")?;
    text.extend_from_slice(sum)?;
    text.extend_from_slice(b")/")?;
    text.extend_from_slice(format!(in alloc; "{denominator}")?.as_bytes())?;
    Ok(text)
}
