//! The text of a certificate.

ghost use Rattle.std.specs.Prelude.{◌≡◌, ◌++◌, codes, length, IfOk};
ghost use Rattle.iolb_check.specs.Claims.{claim_of_certificate};
ghost use Rattle.iolb_check.specs.Limits.{IsSmallBranch};
ghost use Rattle.serde_json.specs.Written.{compact_text};
ghost use Rattle.iolb_cert.specs.Terms.{branch_shape};
ghost use Rattle.iolb_cert.specs.Written.{written_branch};
ghost use Rattle.iolb_cert.specs.OneCertificate.{HasCertificate};
ghost use Rattle.iolb_cert.specs.CertificateText.{certificate_text as text_of_certificate};

use crate::certificates::OfCertificate;
use crate::terms::OfBranch;
use affine_form::Memory;
use iolb_check::{Branch, Certificate};
use json_parts::Part;
use std::alloc::Global;

/// The text of a certificate: JSON without spaces, the keys of each object in byte order, a newline at the end.
/// Polynomials stand by their terms in the order in which they are printed, each with an exponent for each variable up
/// to the greatest that the polynomial uses.
pub fn certificate_text(alloc: Global, certificate: &Certificate) -> Result<Vec<u8>, Memory>
    ensures text { IfOk result (λ text. text.items ≡ text_of_certificate certificate.now) }
    ensures reads { IfOk result (λ text. HasCertificate text.items (claim_of_certificate certificate.now)) }
{
    let value = OfCertificate::write(alloc, certificate)?;
    let text = value.to_vec(alloc)?;
    let all = with_newline(text)?;
    Ok(all)
}

/// How many bytes a branch's text has, as it stands in a certificate's.
pub fn branch_bytes(alloc: Global, branch: &Branch) -> Result<usize, Memory>
    requires { IsSmallBranch branch.now }
    ensures { IfOk result (λ bytes. bytes ≡ length (compact_text (branch_shape.data_of (written_branch branch.now)))) }
{
    let value = OfBranch::write(alloc, branch)?;
    let text = value.to_vec(alloc)?;
    Ok(text.as_slice().len())
}

/// A text with a newline at its end.
fn with_newline(text: Vec<u8>) -> Result<Vec<u8>, Memory>
    ensures { IfOk result (λ all. all.items ≡ text.items ++ codes "\n") }
{
    let mut all = text;
    all.push(b'\n')?;
    Ok(all)
}
