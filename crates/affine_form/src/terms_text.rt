//! The printed form of a sum.

ghost use Rattle.std.specs.Prelude.{◌≡◌, ℤ, ℕ, List, false, [], ◌∷◌, ◌++◌, IfOk};
ghost use Rattle.iolb_model.specs.Printed.{size_text};
ghost use Rattle.affine_form.specs.SumText.{followed_by, sign_text};

use crate::memory::Memory;
use std::alloc::Global;
use std::marker::Model;

/// The printed form of a sum, made term by term: a term is its coefficient's size and its product of variables,
/// joined by `*`; a size of 1 is left out unless there is no variable. Terms are joined by ` + ` and ` - `, and a
/// first negative term has `-` before it. Terms of coefficient 0 are left out, and the empty sum is `0`.
#[derive(Debug, Drop)]
pub struct TermsText {
    text: Vec<u8>,
    started: bool,
}

impl Model for TermsText {
    ghost use Rattle.affine_form.specs.SumText.{SumText};

    ghost Value = { SumText };

    ghost view = { λ sum. record { text = sum.text.items; started = sum.started } };
}

impl TermsText {
    /// The text of a sum of which no term is printed yet.
    pub fn new(alloc: Global) -> TermsText
        ensures { result ≡ record { text = []; started = false } }
    {
        TermsText {
            text: Vec::new(alloc),
            started: false,
        }
    }

    /// The text with one term more: a coefficient, and the text of its product of variables.
    pub fn with_term(
        self,
        alloc: Global,
        coefficient: i128,
        product: &[u8],
    ) -> Result<TermsText, Memory>
        ensures { IfOk result (λ sum. (rest : List (ℤ × List ℕ))
            → followed_by sum rest ≡ followed_by self ((coefficient, product.now) ∷ rest)) }
    {
        if coefficient == 0 {
            return Ok(self);
        }
        let mut text = self.text;
        text.extend_from_slice(sign(self.started, coefficient))?;
        text.extend_from_slice(size(alloc, coefficient, product)?.as_slice())?;
        Ok(TermsText {
            text,
            started: true,
        })
    }

    /// The whole text.
    pub fn finish(self) -> Result<Vec<u8>, Memory>
        ensures { IfOk result (λ text. text.items ≡ followed_by self []) }
    {
        let mut text = self.text;
        if !self.started {
            text.push(b'0')?;
        }
        Ok(text)
    }
}

/// What stands before a term's size.
fn sign(started: bool, coefficient: i128) -> &'static [u8]
    ensures { result.now ≡ sign_text started coefficient }
{
    match (started, coefficient < 0) {
        (true, true) => b" - ",
        (true, false) => b" + ",
        (false, true) => b"-",
        (false, false) => b"",
    }
}

/// A term without its sign.
fn size(alloc: Global, coefficient: i128, product: &[u8]) -> Result<Vec<u8>, Memory>
    ensures { IfOk result (λ text. text.items ≡ size_text coefficient product.now) }
{
    let size = coefficient.unsigned_abs();
    if size == 1 && !product.is_empty() {
        return Ok(Vec::from_slice(alloc, product)?);
    }
    let digits = format!(in alloc; "{size}")?;
    let mut text = Vec::from_slice(alloc, digits.as_bytes())?;
    if !product.is_empty() {
        text.push(b'*')?;
        text.extend_from_slice(product)?;
    }
    Ok(text)
}
