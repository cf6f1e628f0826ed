//! That a certificate has one answer.

ghost use Rattle.iolb_check.specs.Exact.{RefusalsAreOne, ValidCertificatesGiveOne, ValidCertificatesHaveValues, ValidCertificatesStand};

/// A law: what a certificate claims has one answer. Where all conditions hold it isn't refused, and its terms have values, one
/// list of them; else it is refused by one condition at one place.
pub fn answers_are_exact()
    ensures stand { ValidCertificatesStand }
    ensures values { ValidCertificatesHaveValues }
    ensures one { ValidCertificatesGiveOne }
    ensures refused { RefusalsAreOne }
{}
