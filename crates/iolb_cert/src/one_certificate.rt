//! A text has one certificate, or one fault.

ghost use Rattle.iolb_cert.specs.OneCertificate.{TextsHaveOneAnswer, TextsHaveOneCertificate};

/// Two certificates of one text are equal: they claim the same, by the same polynomials.
pub fn texts_have_one_certificate()
    ensures { TextsHaveOneCertificate }
{}

/// No text has both a certificate and a fault, and two faults of one text are equal.
pub fn texts_have_one_answer()
    ensures { TextsHaveOneAnswer }
{}
