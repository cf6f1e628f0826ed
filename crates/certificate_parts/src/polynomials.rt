//! Polynomials.

ghost use Rattle.std.specs.Prelude.{◌≡◌, ◌<◌, ◌≤◌, ◌∷◌, [], ◌++◌, length, map, codes, true, IfOk};
ghost use Rattle.std.specs.List.{AllByRecursion};
ghost use Rattle.iolb_model.specs.Polynomial.{Term, Polynomial};
ghost use Rattle.iolb_model.specs.declared.limits.TheConstants.{COEFFICIENT_SIZE, EXPONENT};
ghost use Rattle.affine_form.specs.Form.{IsSmall};
ghost use Rattle.poly_tree.specs.Terms.{term_of, terms_of, HasExponents, AreApart};
ghost use Rattle.certificate_fit.specs.Limits.{IsSmallPolynomial};
ghost use Rattle.serde_json.specs.Data.{member, no_members, object};
ghost use Rattle.json_values.specs.View.{json_data};
ghost use Rattle.serde_json.specs.View.{view};
ghost use Rattle.json_parts.specs.Json.{each, reads_natural};
ghost use Rattle.json_parts.specs.Outcome.{Gives};
ghost use Rattle.json_parts.specs.Related.{other_link};
ghost use Rattle.json_parts.specs.Written.{list, natural, whole};
ghost use Rattle.certificate_parts.specs.Polynomials.{reads_coefficient, reads_term, stands_apart as do_stand_apart, reads_term_behind, reads_terms, reads_quotient, term_data, written_polynomial, IsPolynomial, polynomial_shape, HasLists, exponent_lists};

use crate::apart::stands_apart;
use crate::numbers::narrowed;
use affine_form::Memory;
use claims::{ObjectKey, Step};
use iolb_model::limits;
use json_parts::{CertError, Part, fault, has_keys, integer, list, natural, short_list, under};
use json_values::Json;
use poly_tree::{Poly, PolyFault};
use serde_json::{Value, json};
use std::alloc::{AllocError, Global};
use std::collections::BTreeSet;

/// A coefficient.
#[tactic(auto, unfolding(crate::specs::Polynomials::reads_coefficient))]
fn coefficient(alloc: Global, value: &Json) -> Result<i128, CertError>
    ensures { Gives (λ z. z) result (reads_coefficient (json_data value.now)) }
{
    match integer(alloc, value, limits::COEFFICIENT_SIZE) {
        Ok(0) => Err(fault(alloc, 2)),
        Ok(coefficient) => Ok(coefficient),
        Err(error) => Err(error),
    }
}

/// The exponents behind a coefficient.
fn exponents(alloc: Global, values: &[Json]) -> Result<Vec<u8>, CertError>
    ensures read { Gives (λ exponents. exponents.items) result (each (reads_natural 0 8) 1 (map json_data values.now)) }
    ensures low { IfOk result (λ exponents. AllByRecursion (λ e. e ≤ EXPONENT) exponents.items) }
    ensures all { IfOk result (λ exponents. length exponents.items ≡ length values.now) }
{
    let mut exponents = Vec::new(alloc);
    for (i, value) in values.iter().enumerate() {
        match natural(alloc, value, 0, 8) {
            Ok(exponent) => exponents.push(exponent as u8)?,
            Err(error) => return Err(under(alloc, Step::Index(i as u64 + 1), error)),
        }
    }
    Ok(exponents)
}

/// A term: its coefficient, then its exponents.
#[tactic(auto, unfolding(crate::specs::Polynomials::reads_term, crate::specs::Polynomials::term_in))]
fn term(alloc: Global, value: &Json) -> Result<(i128, Vec<u8>), CertError>
    ensures read { Gives term_of result (reads_term (json_data value.now)) }
    ensures fit { IfOk result (λ term. HasExponents (term_of term)) }
{
    let values = short_list(alloc, value, 25)?;
    if values.is_empty() {
        return Err(fault(alloc, 2));
    }
    let coefficient = match coefficient(alloc, &values[0]) {
        Ok(coefficient) => coefficient,
        Err(error) => return Err(under(alloc, Step::Index(0), error)),
    };
    let exponents = exponents(alloc, &values[1..])?;
    Ok((coefficient, exponents))
}

/// A term behind earlier ones, whose exponent lists are kept beside them.
#[tactic(auto, unfolding(crate::specs::Polynomials::reads_term_behind))]
fn term_behind(
    alloc: Global,
    earlier: &[(i128, Vec<u8>)],
    lists: &mut BTreeSet<Vec<u8>>,
    value: &Json,
) -> Result<(i128, Vec<u8>), CertError>
    requires apart { AreApart (terms_of earlier.now) }
    requires lists { HasLists lists.old (exponent_lists (terms_of earlier.now)) }
    ensures read { Gives term_of result (reads_term_behind (terms_of earlier.now) (json_data value.now)) }
    ensures fit { IfOk result (λ term. HasExponents (term_of term)) }
    ensures apart { IfOk result (λ term. do_stand_apart (terms_of earlier.now) term.1.items ≡ true) }
    ensures lists { IfOk result (λ term. HasLists lists.new (exponent_lists (terms_of earlier.now) ++ term.1.items ∷ [])) }
{
    let (coefficient, exponents) = term(alloc, value)?;
    if stands_apart(alloc, earlier, lists, exponents.as_slice())? {
        Ok((coefficient, exponents))
    } else {
        Err(fault(alloc, 2))
    }
}

/// The terms of a polynomial.
#[tactic(auto, unfolding(crate::specs::Polynomials::reads_terms))]
fn terms(alloc: Global, value: &Json) -> Result<Vec<(i128, Vec<u8>)>, CertError>
    ensures read { Gives (λ terms. terms_of terms.items) result (reads_terms (json_data value.now)) }
    ensures fit { IfOk result (λ terms. AllByRecursion HasExponents (terms_of terms.items)) }
    ensures apart { IfOk result (λ terms. AreApart (terms_of terms.items)) }
{
    let values = list(alloc, value)?;
    let mut terms = Vec::new(alloc);
    let mut lists = BTreeSet::new(alloc);
    for (i, value) in values.iter().enumerate() {
        match term_behind(alloc, terms.as_slice(), &mut lists, value) {
            Ok(term) => terms.push(term)?,
            Err(error) => return Err(under(alloc, Step::Index(i as u64), error)),
        }
    }
    Ok(terms)
}

/// The denominator of a polynomial, and its terms.
#[tactic(auto, unfolding(crate::specs::Polynomials::reads_quotient, json_parts::specs::Json::with_keys))]
fn quotient(alloc: Global, value: &Json) -> Result<(u64, Vec<(i128, Vec<u8>)>), CertError>
    ensures read { Gives (λ quotient. record { terms = terms_of quotient.1.items; denominator = quotient.0 }) result (reads_quotient (json_data value.now)) }
    ensures fit { IfOk result (λ quotient. AllByRecursion HasExponents (terms_of quotient.1.items)) }
    ensures apart { IfOk result (λ quotient. AreApart (terms_of quotient.1.items)) }
    ensures some { IfOk result (λ quotient. 1 ≤ quotient.0) }
    ensures small { IfOk result (λ quotient. quotient.0 < COEFFICIENT_SIZE) }
{
    if !has_keys(value, &["den", "terms"]) {
        return Err(fault(alloc, 2));
    }
    let den = match value.get("den") {
        Some(part) => match natural(alloc, part, 1, (1 << 62) - 1) {
            Ok(den) => den,
            Err(error) => return Err(under(alloc, Step::Key(ObjectKey("den")), error)),
        },
        None => return Err(fault(alloc, 2)),
    };
    match value.get("terms") {
        Some(part) => match terms(alloc, part) {
            Ok(terms) => Ok((den, terms)),
            Err(error) => Err(under(alloc, Step::Key(ObjectKey("terms")), error)),
        },
        None => Err(fault(alloc, 2)),
    }
}

/// A term: its coefficient, then its exponents.
fn write_term(alloc: Global, coefficient: i128, exponents: &[u8]) -> Result<Value, Memory>
    requires { IsSmall COEFFICIENT_SIZE coefficient }
    ensures { IfOk result (λ value. view value ≡ list (whole coefficient ∷ map natural exponents.now)) }
{
    let mut items = Vec::new(alloc);
    items.push(Value::from(narrowed(coefficient)))?;
    for exponent in exponents {
        items.push(Value::from(*exponent))?;
    }
    Ok(Value::Array(items))
}

/// The terms of a polynomial.
fn write_terms(alloc: Global, terms: &[(i128, Vec<u8>)]) -> Result<Value, Memory>
    requires { AllByRecursion (λ (term : Term). IsSmall COEFFICIENT_SIZE term.coefficient) (terms_of terms.now) }
    ensures { IfOk result (λ value. view value ≡ list (map term_data (terms_of terms.now))) }
{
    let mut items = Vec::new(alloc);
    for (coefficient, exponents) in terms {
        items.push(write_term(alloc, *coefficient, exponents.as_slice())?)?;
    }
    Ok(Value::Array(items))
}

/// The object of a denominator and terms.
fn polynomial_object(alloc: Global, den: u64, terms: Value) -> Result<Value, AllocError>
    ensures { IfOk result (λ value. view value
        ≡ object (member (codes "den") (natural den) (member (codes "terms") (view terms) no_members))) }
{
    json!(in alloc; {"den": den, "terms": terms})
}

/// A polynomial, read as it is written, and held without common factors.
pub struct OfPolynomial {}

impl Part for OfPolynomial {
    type Value = Poly;

    ghost Said = { Polynomial };

    ghost shape = { polynomial_shape };

    ghost link = { other_link written_polynomial IsPolynomial };

    ghost Fits = { IsSmallPolynomial };

    #[tactic(auto, unfolding(crate::specs::Polynomials::reads_polynomial))]
    fn read(alloc: Global, value: &Json) -> Result<Poly, CertError> {
        let (den, terms) = quotient(alloc, value)?;
        match Poly::from_terms(alloc, terms.as_slice(), i128::from(den)) {
            Ok(poly) => Ok(poly),
            Err(PolyFault::Wide) => Err(fault(alloc, 3)),
            Err(PolyFault::Memory) => Err(CertError::Memory),
        }
    }

    fn write(alloc: Global, part: &Poly) -> Result<Value, Memory> {
        let den = part.den() as u64;
        let found = part.terms(alloc)?;
        let terms = write_terms(alloc, found.as_slice())?;
        Ok(polynomial_object(alloc, den, terms)?)
    }
}
