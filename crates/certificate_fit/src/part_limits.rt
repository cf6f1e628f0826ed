//! Whether forms, multipliers and polynomials are within their limits.

ghost use Rattle.std.specs.Prelude.{◌≡◌, ◌<◌, ◌≤◌, ◌↔◌, IsTrue, length};
ghost use Rattle.std.specs.List.{AllByRecursion};
ghost use Rattle.certificate_fit.specs.Limits.{AreSmall, AreSmallBounds, NamesRows, NameRows, IsSmallPolynomial};
ghost use Rattle.iolb_model.specs.declared.limits.TheConstants.{NEST_VARIABLES, ROWS};

use affine_form::{Form, Multipliers};
use affine_program::is_small_form;
use domain_count::{Nest, Sums};
use iolb_model::limits;
use poly_tree::Poly;

/// Whether the numbers of forms are of size below 2^20.
pub fn are_small(forms: &[Form]) -> bool
    ensures { IsTrue result ↔ AreSmall forms.now }
{
    for form in forms {
        if !is_small_form(form) {
            return false;
        }
    }
    true
}

/// Whether weights are those of rows below 128.
fn weights_name_rows(weights: &[(u8, u64)]) -> bool
    ensures { IsTrue result ↔ AllByRecursion (λ weight. weight.0 < ROWS) weights.now }
{
    for (row, _) in weights {
        if usize::from(*row) >= limits::ROWS {
            return false;
        }
    }
    true
}

/// Whether multipliers are those of rows below 128.
pub fn names_rows(shown: &Multipliers) -> bool
    ensures { IsTrue result ↔ NamesRows shown.now }
{
    weights_name_rows(shown.m())
}

/// Whether all multipliers are those of rows below 128.
pub fn name_rows(all: &[Multipliers]) -> bool
    ensures { IsTrue result ↔ NameRows all.now }
{
    for shown in all {
        if !names_rows(shown) {
            return false;
        }
    }
    true
}

/// Whether a polynomial is within its limits.
fn is_small_polynomial(poly: &Poly) -> bool
    ensures { IsTrue result ↔ IsSmallPolynomial poly.now }
{
    poly.uses_below(limits::VARIABLES)
        && poly.has_numbers_below(limits::COEFFICIENT_SIZE)
        && poly.den().unsigned_abs() < limits::COEFFICIENT_SIZE
        && poly.capped_size() < limits::MEASURE
}

/// Whether polynomials are within their limits.
pub fn are_small_polynomials(polys: &[Poly]) -> bool
    ensures { IsTrue result ↔ AllByRecursion IsSmallPolynomial polys.now }
{
    for poly in polys {
        if !is_small_polynomial(poly) {
            return false;
        }
    }
    true
}

/// Whether the numbers of a nest's bounds are of size below 2^20.
pub fn bounds_are_small(bounds: &[(Form, Form)]) -> bool
    ensures { IsTrue result ↔ AreSmallBounds bounds.now }
{
    for (lower, upper) in bounds {
        if !is_small_form(lower) || !is_small_form(upper) {
            return false;
        }
    }
    true
}

/// Whether a nest is within its limits, and what is claimed of its number of points.
pub fn nest_is_small(nest: &Nest, sums: &Sums) -> bool
    ensures { IsTrue result ↔ ((length nest.now ≤ NEST_VARIABLES) × AreSmallBounds nest.now
        × NameRows sums.now.shown × AllByRecursion IsSmallPolynomial sums.now.sums) }
{
    nest.bounds().len() <= limits::NEST_VARIABLES
        && bounds_are_small(nest.bounds())
        && name_rows(sums.shown())
        && are_small_polynomials(sums.sums())
}
