//! Texts of certificates are read back.

ghost use Rattle.iolb_cert.specs.ReadBackLaw.{CertificatesAreReadBack};

/// A text of a certificate, as `certificate_text` writes it, is read as that certificate, unless memory fails.
pub fn certificates_are_read_back()
    ensures { CertificatesAreReadBack }
{}
