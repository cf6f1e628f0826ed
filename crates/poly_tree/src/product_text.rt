//! Products of powers, printed.

ghost use Rattle.std.specs.Prelude.{◌≡◌, ◌∷◌, [], ◌++◌, ℕ, List, if◌then◌else◌, codes, IfOk, OnOk};
ghost use Rattle.iolb_model.specs.Printed.{power_text as text_of_power, product_text as text_of_product};
ghost use Rattle.poly_tree.specs.Powers.{powers_after};

use affine_form::{Memory, Name};
use std::alloc::Global;

/// The powers of the variables with these exponents, joined by `*`, without those of exponent 0.
pub(crate) fn product_text(
    alloc: Global,
    names: &[Name],
    exponents: &[usize],
) -> Result<Vec<u8>, Memory>
    ensures { IfOk result (λ text. text.items ≡ text_of_product names.now exponents.now) }
{
    let mut text = Vec::new(alloc);
    let mut started = false;
    for i in 0..names.len().min(exponents.len()) {
        started = push_shown(alloc, &mut text, started, &names[i], exponents[i])?;
    }
    Ok(text)
}

/// A power of a variable, written at the end unless its exponent is 0; whether any power stands there then.
fn push_shown(
    alloc: Global,
    text: &mut Vec<u8>,
    started: bool,
    name: &Name,
    exponent: usize,
) -> Result<bool, Memory>
    ensures { IfOk result (λ now. (rest : List (List ℕ × ℕ)) → text.new.items ++ powers_after now rest
        ≡ text.old.items ++ powers_after started ((name.now, exponent) ∷ rest)) }
{
    if exponent == 0 {
        return Ok(started);
    }
    text.extend_from_slice(separator(started))?;
    push_power(alloc, text, name, exponent)?;
    Ok(true)
}

/// What stands between powers.
fn separator(started: bool) -> &'static [u8]
    ensures { result.now ≡ (if started then codes "*" else []) }
{
    if started { b"*" } else { b"" }
}

/// A power of a variable, written at the end.
fn push_power(alloc: Global, text: &mut Vec<u8>, name: &Name, exponent: usize) -> Result<(), Memory>
    ensures { OnOk result (text.new.items ≡ text.old.items ++ text_of_power (name.now, exponent)) }
{
    text.extend_from_slice(name.bytes())?;
    if exponent != 1 {
        text.push(b'^')?;
        text.extend_from_slice(format!(in alloc; "{exponent}")?.as_bytes())?;
    }
    Ok(())
}
