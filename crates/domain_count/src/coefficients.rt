//! The coefficients of a variable's powers, by terms.

ghost use Rattle.std.specs.Prelude.{◌≡◌, ◌≤◌, ◌<◌, ◌++◌, ◌∷◌, [], slice_index_or, slice_set, replicate, length, IfOk};
ghost use Rattle.poly_tree.specs.Terms.{term_of, terms_of};
ghost use Rattle.domain_count.specs.Coefficients.{coefficient_terms, degree_of, power_terms};

use affine_form::Memory;
use std::alloc::Global;

/// The terms with a power of a variable, without it.
pub(crate) fn coefficient_terms(
    alloc: Global,
    terms: &[(i128, Vec<u8>)],
    var: usize,
    power: u8,
) -> Result<Vec<(i128, Vec<u8>)>, Memory>
    ensures { IfOk result (λ found. terms_of found.items ≡ coefficient_terms var power (terms_of terms.now)) }
{
    let mut found = Vec::new(alloc);
    for (coefficient, exponents) in terms {
        if exponent_of(exponents.as_slice(), var) == power {
            let others = without(alloc, exponents.as_slice(), var)?;
            found.push((*coefficient, others))?;
        }
    }
    Ok(found)
}

/// The greatest power of a variable.
pub(crate) fn degree_of(terms: &[(i128, Vec<u8>)], var: usize) -> u8
    ensures { result ≡ degree_of var (terms_of terms.now) }
{
    let mut degree = 0;
    for (_, exponents) in terms {
        degree = exponent_of(exponents.as_slice(), var).max(degree);
    }
    degree
}

/// The exponent of a variable, 0 past the end.
fn exponent_of(exponents: &[u8], var: usize) -> u8
    ensures { result ≡ slice_index_or exponents.now var 0 }
{
    if var < exponents.len() {
        exponents[var]
    } else {
        0
    }
}

/// The exponents without that of a variable.
fn without(alloc: Global, exponents: &[u8], var: usize) -> Result<Vec<u8>, Memory>
    ensures { IfOk result (λ others. others.items ≡ slice_set exponents.now var 0) }
{
    let mut others = Vec::from_slice(alloc, exponents)?;
    if var < others.len() {
        others[var] = 0;
    }
    Ok(others)
}

/// A row's numbers as terms, each with a power of a variable, from the power 0 on.
pub(crate) fn power_terms(
    alloc: Global,
    var: usize,
    numbers: &[i64],
) -> Result<Vec<(i128, Vec<u8>)>, Memory>
    requires few { var < 24 }
    requires short { length numbers.now ≤ 8 }
    ensures { IfOk result (λ terms. terms_of terms.items ≡ power_terms var 0 numbers.now) }
{
    let mut terms = Vec::new(alloc);
    for (power, number) in numbers.iter().enumerate() {
        terms.push(power_term(alloc, var, power as u8, *number)?)?;
    }
    Ok(terms)
}

/// A number as a term with a power of a variable.
fn power_term(alloc: Global, var: usize, power: u8, number: i64) -> Result<(i128, Vec<u8>), Memory>
    requires { var < 24 }
    ensures { IfOk result (λ term. term_of term ≡ record { coefficient = number; exponents = replicate var 0 ++ power ∷ [] }) }
{
    let mut exponents = Vec::new(alloc);
    exponents.resize(var, 0)?;
    exponents.push(power)?;
    Ok((i128::from(number), exponents))
}
