//! What terms are worth where the parameters, and the fast memory beside them, are great.

ghost use Rattle.std.specs.Prelude.{◌≡◌, ◌^◌, IfSome};

use affine_form::{Memory, Name, TermsText};
use k_partition::PartitionBound;
use plain_pages::Page;
use poly_tree::Poly;
use std::alloc::Global;

/// Whole numbers below this one are tried as roots.
const MOST_ROOT: u32 = 4096;

/// A number that is a root of a quotient: the root of this degree of `num` over `den`.
#[derive(Clone, Copy)]
struct Root {
    num: u128,
    den: u128,
    degree: u32,
}

/// The greatest number that divides two.
fn common_divisor(one: u128, other: u128) -> u128 {
    if other == 0 {
        one
    } else {
        common_divisor(other, one % other)
    }
}

/// A quotient in lowest terms; as it is where both are 0.
fn reduced(num: u128, den: u128) -> (u128, u128) {
    let common = common_divisor(num, den);
    (
        num.checked_div(common).unwrap_or(num),
        den.checked_div(common).unwrap_or(den),
    )
}

/// The whole number whose power of this degree is a number, where there is one below `MOST_ROOT`.
fn whole_root(number: u128, degree: u32) -> Option<u128>
    ensures { IfSome result (λ root. root ^ degree ≡ number) }
{
    for root in 1..MOST_ROOT {
        let root = u128::from(root);
        if root.checked_pow(degree) == Some(number) {
            return Some(root);
        }
    }
    None
}

impl Root {
    /// Writes the number and a sign of multiplication; nothing where it is 1.
    fn write(self, page: &mut Page) -> Result<(), Memory> {
        let (num, den, degree) = (self.num, self.den, self.degree);
        if num == den {
            return Ok(());
        }
        match (whole_root(num, degree), whole_root(den, degree)) {
            (Some(whole), Some(1)) => page.text(format!(in page.alloc(); "{whole}*")?.as_str())?,
            (Some(above), Some(below)) => {
                page.text(format!(in page.alloc(); "{above}/{below}*")?.as_str())?;
            }
            _ => page.text(format!(in page.alloc(); "({num}/{den})^(1/{degree})*")?.as_str())?,
        }
        Ok(())
    }
}

/// What stands before the count and the power of S in what a partition term is worth for a great S: the root of
/// `a^q * den / (num * (1 + a)^m)`, or of `b^q * den / num` where no event is for a red word. None where a number is too great.
fn factor_of(bound: &PartitionBound) -> Option<Root> {
    let degree = u32::from(bound.q);
    let (events, spread) = if bound.a > 0 {
        let a = u128::from(bound.a);
        (a, a.saturating_add(1).checked_pow(u32::from(bound.m))?)
    } else {
        (u128::from(bound.b), 1)
    };
    let num = events.checked_pow(degree)?.checked_mul(bound.den)?;
    let den = bound.num.checked_mul(spread)?;
    let (num, den) = reduced(num, den);
    Some(Root { num, den, degree })
}

/// Writes the power of S by which what a partition term is worth is divided for a great S.
fn write_power(page: &mut Page, bound: &PartitionBound) -> Result<(), Memory> {
    let below = u128::from(bound.q);
    let less = if bound.a > 0 { below } else { 0 };
    let (above, below) = reduced(u128::from(bound.m).saturating_sub(less), below);
    match (above, below) {
        (0, _) => {}
        (1, 1) => page.text("/S")?,
        (1, 2) => page.text("/sqrt(S)")?,
        (_, 1) => page.text(format!(in page.alloc(); "/S^{above}")?.as_str())?,
        _ => page.text(format!(in page.alloc(); "/S^({above}/{below})")?.as_str())?,
    }
    Ok(())
}

/// The sum of exponents.
fn degree_of(exponents: &[u8]) -> u64 {
    let mut degree: u64 = 0;
    for exponent in exponents {
        degree = degree.saturating_add(u64::from(*exponent));
    }
    degree
}

/// The product of powers of variables with these names, as a text.
fn product_text(alloc: Global, names: &[Name], exponents: &[u8]) -> Result<Vec<u8>, Memory> {
    let mut text = Vec::new(alloc);
    for (name, exponent) in names.iter().zip(exponents) {
        if *exponent > 0 {
            if !text.is_empty() {
                text.push(b'*')?;
            }
            text.extend_from_slice(name.bytes())?;
        }
        if *exponent > 1 {
            text.extend_from_slice(format!(in alloc; "^{exponent}")?.as_bytes())?;
        }
    }
    Ok(text)
}

/// The greatest number that divides a denominator and the coefficients of terms.
fn divisor_of(terms: &[(i128, Vec<u8>)], den: u128) -> u128 {
    let mut common = den;
    for (coefficient, _) in terms {
        common = common_divisor(common, coefficient.unsigned_abs());
    }
    common
}

/// The terms of the greatest degree: those in front of the first of another degree.
fn greatest(terms: &[(i128, Vec<u8>)]) -> &[(i128, Vec<u8>)] {
    let Some((_, first)) = terms.first() else {
        return terms;
    };
    let degree = degree_of(first.as_slice());
    for (place, (_, exponents)) in terms.iter().enumerate() {
        if degree_of(exponents.as_slice()) < degree {
            return terms.get(..place).unwrap_or(terms);
        }
    }
    terms
}

/// The sum of terms over a number that divides each of their coefficients, as a text.
fn sum_text(
    alloc: Global,
    names: &[Name],
    terms: &[(i128, Vec<u8>)],
    common: u128,
) -> Result<Vec<u8>, Memory> {
    let mut text = TermsText::new(alloc);
    let common = i128::try_from(common).unwrap_or(1);
    for (coefficient, exponents) in terms {
        let product = product_text(alloc, names, exponents.as_slice())?;
        let whole = coefficient.checked_div(common).unwrap_or(*coefficient);
        text = text.with_term(alloc, whole, product.as_slice())?;
    }
    text.finish()
}

/// Writes the terms of a polynomial of the greatest degree, in brackets where they are several or over a number.
pub(crate) fn write_greatest(page: &mut Page, names: &[Name], poly: &Poly) -> Result<(), Memory> {
    let alloc = page.alloc();
    let all = poly.terms(alloc)?;
    let terms = greatest(all.as_slice());
    let common = divisor_of(terms, poly.den().unsigned_abs());
    let den = poly.den().unsigned_abs().checked_div(common).unwrap_or(1);
    let text = sum_text(alloc, names, terms, common)?;
    if terms.len() < 2 && den == 1 {
        page.write_bytes(text.as_slice())?;
        return Ok(());
    }
    page.text("(")?;
    page.write_bytes(text.as_slice())?;
    if den > 1 {
        page.text(format!(in alloc; "/{den}")?.as_str())?;
    }
    page.text(")")?;
    Ok(())
}

/// Writes what a partition term is worth where the parameters are great, and the fast memory too but far below them: the factor, the
/// count's terms of the greatest degree, and the power of S.
pub(crate) fn write_worth(
    page: &mut Page,
    names: &[Name],
    bound: &PartitionBound,
) -> Result<(), Memory> {
    let Some(factor) = factor_of(bound) else {
        return Ok(());
    };
    page.text("    for great parameters and S about ")?;
    factor.write(page)?;
    write_greatest(page, names, &bound.count)?;
    write_power(page, bound)?;
    page.line("")?;
    Ok(())
}
