//! An accepted certificate that takes branches, one after another.

ghost use Rattle.std.specs.Prelude.{◌≡◌, [], ◌∷◌, ◌++◌, ◌<◌, length, IfOk};
ghost use Rattle.std.specs.List.{AllByRecursion};
ghost use Rattle.affine_program.specs.Parts.{meaning};
ghost use Rattle.find_terms.specs.AcceptedCertificates.{Gives, IsAccepted, IsTaken};
ghost use Rattle.find_terms.specs.Opened.{BeginsWithOpening};
ghost use Rattle.find_terms.specs.Proposed.{IsProposal};
ghost use Rattle.iolb_check.specs.Limits.{IsSmallBranch};
ghost use Rattle.iolb_model.specs.declared.limits.TheConstants.{BRANCHES};

use crate::accepted::{Accepted, bound_for, without_last};
use affine_form::Memory;
use affine_program::Program;
use iolb_cert::{branch_bytes, certificate_text};
use iolb_check::{Bound, Branch, Certificate};
use iolb_model::limits;
use std::alloc::Global;

/// An accepted certificate with the bound that it gives, how many bytes its text has, and whether it takes no more branches.
#[derive(Drop)]
pub(crate) struct Growing {
    pub(crate) certificate: Certificate,
    pub(crate) bound: Bound,
    pub(crate) bytes: usize,
    pub(crate) full: bool,
}

/// What comes of a certificate with a branch more.
#[derive(Drop)]
pub(crate) enum Verdict {
    /// It gives this bound.
    Taken(Bound),
    /// It is left as it was: the larger one is refused, or, where it takes no more, its text is too long.
    Left { full: bool },
}

/// A certificate with a branch more.
fn with_branch(certificate: Certificate, branch: Branch) -> Result<Certificate, Memory>
    requires few { length certificate.branches < BRANCHES }
    requires small { IsSmallBranch branch }
    ensures { IfOk result (λ larger. larger ≡ record { quasts = certificate.quasts; branches = certificate.branches ++ branch ∷ [] }) }
{
    let _branches = certificate.branches();
    let (quasts, mut branches) = certificate.parts();
    branches.push(branch)?;
    Ok(Certificate::within(quasts, branches))
}

/// What comes of a certificate with a branch more, whose text has so many bytes. With one branch alone it isn't too long.
fn verdict_on(
    alloc: Global,
    program: &Program,
    larger: &Certificate,
    bytes: usize,
    most: usize,
) -> Result<Verdict, Memory>
    ensures { IfOk result (IsTaken program.now larger.now) }
{
    let Some(bound) = bound_for(alloc, program, larger)? else {
        return Ok(Verdict::Left { full: false });
    };
    if bytes > most && larger.branches().len() > 1 {
        return Ok(Verdict::Left { full: true });
    }
    Ok(Verdict::Taken(bound))
}

/// How many bytes a certificate's text has with a branch more, which stands behind a comma where it isn't the first.
fn bytes_with(alloc: Global, growing: &Growing, branch: &Branch) -> Result<usize, Memory>
    requires { IsSmallBranch branch.now }
{
    let comma = usize::from(!growing.certificate.branches().is_empty());
    let more = branch_bytes(alloc, branch)?;
    Ok(growing.bytes.saturating_add(comma).saturating_add(more))
}

/// A certificate with a branch more, where the checker accepts it and its text isn't too long. It takes no more where that
/// is too long, and where it has as many branches as may be.
fn grown(
    alloc: Global,
    program: &Program,
    growing: Growing,
    branch: Branch,
    most: usize,
) -> Result<Growing, Memory>
    requires gives { Gives program.now growing.certificate growing.bound }
    requires opening { BeginsWithOpening (meaning program.now) growing.certificate.branches }
    requires small { IsSmallBranch branch }
    ensures gives { IfOk result (λ growing. Gives program.now growing.certificate growing.bound) }
    ensures opening { IfOk result (λ growing. BeginsWithOpening (meaning program.now) growing.certificate.branches) }
{
    if growing.certificate.branches().len() >= limits::BRANCHES {
        let full = true;
        return Ok(Growing { full, ..growing });
    }
    let bytes = bytes_with(alloc, &growing, &branch)?;
    let Growing {
        certificate,
        bound,
        bytes: before,
        full: _,
    } = growing;
    let larger = with_branch(certificate, branch)?;
    match verdict_on(alloc, program, &larger, bytes, most)? {
        Verdict::Taken(bound) => Ok(Growing {
            certificate: larger,
            bound,
            bytes,
            full: bytes > most,
        }),
        Verdict::Left { full } => Ok(Growing {
            certificate: without_last(larger),
            bound,
            bytes: before,
            full,
        }),
    }
}

/// A certificate that was offered a branch.
fn offered(
    alloc: Global,
    program: &Program,
    growing: Growing,
    branch: Branch,
    most: usize,
) -> Result<Growing, Memory>
    requires gives { Gives program.now growing.certificate growing.bound }
    requires opening { BeginsWithOpening (meaning program.now) growing.certificate.branches }
    requires small { IsSmallBranch branch }
    ensures gives { IfOk result (λ growing. Gives program.now growing.certificate growing.bound) }
    ensures opening { IfOk result (λ growing. BeginsWithOpening (meaning program.now) growing.certificate.branches) }
{
    if growing.full {
        return Ok(growing);
    }
    grown(alloc, program, growing, branch, most)
}

/// A certificate with those of the proposed branches, in order, with which the checker accepts it, as many as it may have,
/// and as far as its text has at most so many bytes; but the first of them stays with any text.
pub(crate) fn with_branches(
    alloc: Global,
    program: &Program,
    accepted: Accepted,
    proposals: Vec<Branch>,
    most: usize,
) -> Result<Accepted, Memory>
    requires accepted { IsAccepted program.now accepted }
    requires opening { BeginsWithOpening (meaning program.now) accepted.certificate.branches }
    requires proposals { AllByRecursion IsProposal proposals.items }
    ensures accepted { IfOk result (IsAccepted program.now) }
    ensures opening { IfOk result (λ accepted. BeginsWithOpening (meaning program.now) accepted.certificate.branches) }
{
    let mut growing = Growing {
        certificate: accepted.certificate,
        bound: accepted.bound,
        bytes: accepted.text.len(),
        full: false,
    };
    for branch in proposals {
        growing = offered(alloc, program, growing, branch, most)?;
    }
    let text = certificate_text(alloc, &growing.certificate)?;
    Ok(Accepted {
        certificate: growing.certificate,
        bound: growing.bound,
        text,
    })
}
