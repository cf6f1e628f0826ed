//! Certificates that the checker accepts.

ghost use Rattle.std.specs.Prelude.{◌≡◌, [], ◌∷◌, ◌++◌, IfOk, IfNone, IfSome, List, Some};
ghost use Rattle.affine_program.specs.Parts.{meaning};
ghost use Rattle.find_terms.specs.AcceptedCertificates.{Gives, IsAccepted, IsRefused};
ghost use Rattle.find_terms.specs.Opened.{BeginsWithOpening, HasTreesFor};
ghost use Rattle.find_terms.specs.Shortened.{opened_parts};
ghost use Rattle.find_terms.specs.Trees.{HasTrees};
ghost use Rattle.find_terms.specs.declared.trees.Scope.{Scope};
ghost use Rattle.find_terms.specs.Openings.{FindsOpening, IsOpeningBranch};
ghost use Rattle.iolb_check.specs.declared.term.Branch.{Branch};
ghost use Rattle.projective_bounds.specs.Certified.{IsCertified};
ghost use Rattle.dep_quast.specs.Quasts.{trees_of};

use crate::law::openings_are_accepted;
use affine_form::Memory;
use affine_program::Program;
use claims::Refused;
use iolb_cert::certificate_text;
use iolb_check::{Bound, Branch, Certificate, check};
use projective_bounds::law::certified_are_accepted;
use reuse_paths::Quasts;
use std::alloc::Global;

/// A certificate that is accepted for a program, the bound that it gives, and the certificate's text.
#[derive(Drop)]
pub struct Accepted {
    pub certificate: Certificate,
    pub bound: Bound,
    pub text: Vec<u8>,
}

/// The bound that a certificate gives, where it is accepted.
pub(crate) fn bound_for(
    alloc: Global,
    program: &Program,
    certificate: &Certificate,
) -> Result<Option<Bound>, Memory>
    ensures bound { IfOk result (λ found. IfSome found (λ bound. Gives program.now certificate.now bound)) }
    ensures none { IfOk result (λ found. IfNone found (IsRefused program.now certificate.now)) }
{
    match check(alloc, program, certificate) {
        Ok(bound) => Ok(Some(bound)),
        Err(Refused::Failed(_)) => Ok(None),
        Err(Refused::Memory) => Err(Memory),
    }
}

/// A certificate without its last branch.
pub(crate) fn without_last(certificate: Certificate) -> Certificate
    ensures quasts { result.quasts ≡ certificate.quasts }
    ensures branches { (branches : List Branch) (last : Branch) → certificate.branches ≡ branches ++ last ∷ [] → result.branches ≡ branches }
{
    let _branches = certificate.branches();
    let (quasts, mut branches) = certificate.parts();
    let _last = branches.pop();
    Certificate::within(quasts, branches)
}

/// A certificate with the bound that it gives and its text, where it is accepted.
fn judged(
    alloc: Global,
    program: &Program,
    certificate: Certificate,
) -> Result<Option<Accepted>, Memory>
    ensures accepted { IfOk result (λ found. IfSome found (λ accepted. IsAccepted program.now accepted × (accepted.certificate ≡ certificate))) }
    ensures none { IfOk result (λ found. IfNone found (IsRefused program.now certificate)) }
{
    let Some(bound) = bound_for(alloc, program, &certificate)? else {
        return Ok(None);
    };
    let text = certificate_text(alloc, &certificate)?;
    Ok(Some(Accepted {
        certificate,
        bound,
        text,
    }))
}

/// The certificate of a projective program. It is accepted.
pub(crate) fn certain(
    alloc: Global,
    program: &Program,
    certificate: Certificate,
) -> Result<Accepted, Memory>
    requires { IsCertified (meaning program.now) certificate }
    ensures accepted { IfOk result (IsAccepted program.now) }
    ensures certificate { IfOk result (λ accepted. accepted.certificate ≡ certificate) }
{
    certified_are_accepted();
    match judged(alloc, program, certificate)? {
        Some(accepted) => Ok(accepted),
        None => unreachable!(),
    }
}

/// The certificate of source trees without branches. It is accepted whatever the trees are, as long as they stand.
fn bare(alloc: Global, program: &Program, quasts: Quasts) -> Result<Accepted, Memory>
    requires { (scope : Scope) × HasTrees (meaning program.now) scope (trees_of quasts) }
    ensures accepted { IfOk result (IsAccepted program.now) }
    ensures parts { IfOk result (λ accepted. accepted.certificate ≡ record { quasts = quasts; branches = [] }) }
{
    let _params = program.params();
    let certificate = Certificate::within(quasts, Vec::new(alloc));
    match judged(alloc, program, certificate)? {
        Some(accepted) => Ok(accepted),
        None => unreachable!(),
    }
}

/// The certificate of source trees with the opening branch. It is accepted whatever the trees are, as long as they stand, and
/// are plain where the branch names their reads.
fn with_opening(
    alloc: Global,
    program: &Program,
    quasts: Quasts,
    branch: Branch,
) -> Result<Accepted, Memory>
    requires trees { HasTreesFor (meaning program.now) (Some branch) (trees_of quasts) }
    requires opening { IsOpeningBranch (meaning program.now) branch }
    ensures accepted { IfOk result (IsAccepted program.now) }
    ensures parts { IfOk result (λ accepted. accepted.certificate ≡ record { quasts = quasts; branches = branch ∷ [] }) }
{
    openings_are_accepted();
    let _params = program.params();
    let mut branches = Vec::new(alloc);
    branches.push(branch)?;
    let certificate = Certificate::within(quasts, branches);
    match judged(alloc, program, certificate)? {
        Some(accepted) => Ok(accepted),
        None => unreachable!(),
    }
}

/// An accepted certificate of source trees: with the opening branch, where there is one, and else without branches.
pub(crate) fn opened(
    alloc: Global,
    program: &Program,
    quasts: Quasts,
    opening: Option<Branch>,
) -> Result<Accepted, Memory>
    requires trees { HasTreesFor (meaning program.now) opening (trees_of quasts) }
    requires opening { FindsOpening (meaning program.now) opening }
    ensures accepted { IfOk result (IsAccepted program.now) }
    ensures opening { IfOk result (λ accepted. BeginsWithOpening (meaning program.now) accepted.certificate.branches) }
    ensures parts { IfOk result (λ accepted. accepted.certificate ≡ opened_parts quasts opening) }
{
    match opening {
        Some(branch) => with_opening(alloc, program, quasts, branch),
        None => bare(alloc, program, quasts),
    }
}
