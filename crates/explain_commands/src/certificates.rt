//! Certificates, and the bounds that they give.

ghost use Rattle.std.specs.Prelude.{◌≡◌, IfOk};
ghost use Rattle.affine_program.specs.Parts.{meaning};
ghost use Rattle.iolb_cert.specs.OneCertificate.{HasCertificate};
ghost use Rattle.iolb_check.specs.Claims.{claim_of_certificate};
ghost use Rattle.iolb_check.specs.Conditions.{MeetsConditions};

use crate::stop::Stop;
use affine_program::Program;
use claims::{FailedCondition, Refused};
use iolb_cert::{CertError, CertFault, read_certificate};
use iolb_check::{Bound, Certificate, check};
use plain_pages::Page;
use refusal_words::{write_failed, write_unread};
use std::alloc::Global;

/// What the fault of this number of a certificate's text is.
fn fault_words(number: u8) -> &'static str {
    match number {
        1 => "the text isn't JSON",
        2 => "this value has another shape than is wanted here",
        _ => "this value passes a limit",
    }
}

/// A certificate's text, and the name of the file that has it.
#[derive(Clone, Copy)]
pub(crate) struct Given<'a> {
    pub(crate) name: &'a str,
    pub(crate) text: &'a [u8],
}

impl Given<'_> {
    /// The stop where the text has a fault.
    fn unread(self, alloc: Global, fault: &CertFault) -> Stop {
        let mut page = Page::new(alloc);
        match write_unread(
            &mut page,
            self.name,
            self.text,
            fault.number,
            fault_words(fault.number),
            &fault.place,
        ) {
            Ok(()) => Stop::Wrong(page),
            Err(_) => Stop::Memory,
        }
    }

    /// The stop where the certificate that the text has fails a condition for a program.
    fn failed(
        self,
        alloc: Global,
        program: &Program,
        certificate: &Certificate,
        failed: &FailedCondition,
    ) -> Stop {
        let mut page = Page::new(alloc);
        match write_failed(
            &mut page,
            self.name,
            self.text,
            program,
            certificate,
            failed,
        ) {
            Ok(()) => Stop::Wrong(page),
            Err(_) => Stop::Memory,
        }
    }

    /// The certificate that the text has.
    pub(crate) fn certificate(self, alloc: Global) -> Result<Certificate, Stop>
        ensures { IfOk result (λ certificate. HasCertificate self.entry.text.now (claim_of_certificate certificate)) }
    {
        match read_certificate(alloc, self.text) {
            Ok(certificate) => Ok(certificate),
            Err(CertError::Fault(fault)) => Err(self.unread(alloc, &fault)),
            Err(CertError::Memory) => Err(Stop::Memory),
        }
    }

    /// The bound that the certificate which the text has gives of a program.
    pub(crate) fn bound(
        self,
        alloc: Global,
        program: &Program,
        certificate: &Certificate,
    ) -> Result<Bound, Stop>
        ensures assumed { IfOk result (λ bound. bound.assumed ≡ program.now.assumed) }
        ensures meets { IfOk result (λ bound. MeetsConditions (meaning program.now) (claim_of_certificate certificate.now) bound.branches) }
    {
        match check(alloc, program, certificate) {
            Ok(bound) => Ok(bound),
            Err(Refused::Failed(failed)) => Err(self.failed(alloc, program, certificate, &failed)),
            Err(Refused::Memory) => Err(Stop::Memory),
        }
    }
}
