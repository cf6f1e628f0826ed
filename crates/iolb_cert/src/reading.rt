//! Reading certificates.

ghost use Rattle.iolb_check.specs.Claims.{claim_of_certificate};
ghost use Rattle.iolb_cert.specs.Texts.{ReadsText};
ghost use Rattle.iolb_cert.specs.Read.{IsCertificate};

use crate::certificates::OfCertificate;
use iolb_check::Certificate;
use json_parts::{CertError, Part, fault};
use json_values::{Json, JsonError};
use std::alloc::Global;

/// Reads the text of a certificate.
///
/// # Errors
///
/// The first fault of the text: 1, at the whole, where it is no JSON; else the first in one walk over the value, an
/// object's keys before its values, these by the byte order of the keys: 2 where a value has another shape, 3 where a
/// limit is passed. Want of memory, at any time.
pub fn read_certificate(alloc: Global, bytes: &[u8]) -> Result<Certificate, CertError>
    ensures { ReadsText (λ said certificate. IsCertificate said (claim_of_certificate certificate)) bytes.now result }
{
    let value = match Json::from_slice(alloc, bytes) {
        Ok(value) => value,
        Err(JsonError::Memory) => return Err(CertError::Memory),
        Err(JsonError::NoJson) => return Err(fault(alloc, 1)),
    };
    OfCertificate::read(alloc, &value)
}
