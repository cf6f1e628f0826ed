//! Whether the parts of a certificate fit a program.
#![tactic(auto, using(claims::proofs::Found::in_a_row))]

ghost use Rattle.std.specs.Prelude.{OnOk};
ghost use Rattle.affine_program.specs.Parts.{meaning};
ghost use Rattle.iolb_check.specs.Fit.{PartsFit};
ghost use Rattle.claims.specs.Claims.{Decides};
ghost use Rattle.iolb_check.specs.TermFit.{certificate_fit};
ghost use Rattle.iolb_check.specs.Claims.{claim_of_certificate};

use crate::Certificate;
use crate::fit_branches::all_branches_fit;
use affine_program::Program;
use certificate_fit::trees::all_quasts_fit;
use claims::Refused;
use std::alloc::Global;

/// Whether the parts of a certificate fit a program, in the order of a walk through its text, the branches before the source
/// trees (condition 1).
pub(crate) fn parts_fit(
    alloc: Global,
    program: &Program,
    certificate: &Certificate,
) -> Result<(), Refused>
    ensures fit { Decides (certificate_fit (meaning program.now) (claim_of_certificate certificate.now)) result }
    ensures fits { OnOk result (PartsFit program.now certificate.now) }
{
    let _params = program.params();
    let quasts = certificate.quasts();
    let branches = certificate.branches();
    all_branches_fit(alloc, program, quasts, branches)?;
    all_quasts_fit(alloc, program, quasts)?;
    Ok(())
}
