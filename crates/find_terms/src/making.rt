//! Certificates of programs.

ghost use Rattle.std.specs.Prelude.{IfNone, IfOk, IfSome};
ghost use Rattle.affine_program.specs.Parts.{meaning};
ghost use Rattle.find_terms.specs.AcceptedCertificates.{IsAccepted};
ghost use Rattle.dep_quast.specs.Quasts.{trees_of};
ghost use Rattle.find_terms.specs.Made.{IsMadeFor};
ghost use Rattle.find_terms.specs.Opened.{BeginsWithOpening, HasTreesFor};
ghost use Rattle.find_terms.specs.Shortened.{AreShortParts, AreShortTrees, IsShort, opening_terms};
ghost use Rattle.iolb_model.specs.declared.limits.TheConstants.{CERTIFICATE_BYTES};
ghost use Rattle.projective_bounds.specs.Certified.{HasCoverInReach, IsCertified, IsOfLeastExponent};
ghost use Rattle.k_partition.specs.View.{partition_of};

use crate::accepted::{Accepted, certain, opened};
use crate::growing::with_branches;
use crate::openings::opening;
use crate::proposed::{ProposedBranches, candidates};
use crate::trees::{Scope, source_trees};
use affine_form::Memory;
use affine_program::Program;
use iolb_check::Branch;
use iolb_model::limits;
use projective::as_projective;
use projective_bounds::law::certified_have_least_exponents;
use projective_bounds::{CertifyFault, certify};
use reuse_paths::Quasts;
use std::alloc::Global;

/// A certificate for a program, which the checker accepts. For a projective program with a cover in reach it is that of
/// `certify`. For every other program it has the source trees that are found, the opening branch where there is one, and of the
/// proposed branches, in order, those with which it is accepted; at most 8 branches. The last of them are left out where the text
/// would else pass 64 MiB, and where it still does the source trees of written arrays are blank but for those of the opening
/// branch.
///
/// # Errors
///
/// Want of memory.
pub fn made(alloc: Global, program: &Program) -> Result<Accepted, Memory>
    ensures accepted { IfOk result (IsAccepted program.now) }
    ensures made { IfOk result (λ accepted. IsMadeFor (meaning program.now) accepted.certificate) }
    ensures short { IfOk result (λ accepted. ¬ HasCoverInReach (meaning program.now) → IsShort (meaning program.now) CERTIFICATE_BYTES accepted) }
{
    made_within(alloc, program, limits::CERTIFICATE_BYTES)
}

/// The same with another number of bytes than 64 MiB.
pub fn made_within(alloc: Global, program: &Program, most: usize) -> Result<Accepted, Memory>
    ensures accepted { IfOk result (IsAccepted program.now) }
    ensures made { IfOk result (λ accepted. IsMadeFor (meaning program.now) accepted.certificate) }
    ensures short { IfOk result (λ accepted. ¬ HasCoverInReach (meaning program.now) → IsShort (meaning program.now) most accepted) }
{
    match of_projective(alloc, program)? {
        Some(accepted) => Ok(accepted),
        None => proposed(alloc, program, most),
    }
}

/// The certificate of a projective program with a cover in reach, and none for another program.
fn of_projective(alloc: Global, program: &Program) -> Result<Option<Accepted>, Memory>
    ensures accepted { IfOk result (λ found. IfSome found (IsAccepted program.now)) }
    ensures certified { IfOk result (λ found. IfSome found (λ accepted. (is : IsCertified (meaning program.now) accepted.certificate) × IsOfLeastExponent (meaning program.now) (partition_of is.whole.term))) }
    ensures reach { IfOk result (λ found. IfSome found (λ accepted. HasCoverInReach (meaning program.now))) }
    ensures none { IfOk result (λ found. IfNone found (¬ HasCoverInReach (meaning program.now))) }
{
    certified_have_least_exponents();
    let Some(shape) = as_projective(alloc, program)? else {
        return Ok(None);
    };
    match certify(alloc, program, &shape) {
        Ok(certificate) => Ok(Some(certain(alloc, program, certificate)?)),
        Err(CertifyFault::TooFine) => Ok(None),
        Err(CertifyFault::Memory) => Err(Memory),
    }
}

/// The certificate of the source trees that are found, with the opening branch and proposed branches.
fn proposed(alloc: Global, program: &Program, most: usize) -> Result<Accepted, Memory>
    ensures accepted { IfOk result (IsAccepted program.now) }
    ensures opening { IfOk result (λ accepted. BeginsWithOpening (meaning program.now) accepted.certificate.branches) }
    ensures short { IfOk result (IsShort (meaning program.now) most) }
{
    let quasts = source_trees(alloc, program, Scope::All)?;
    let ProposedBranches { opening, proposals } = candidates(alloc, program, &quasts)?;
    let first = opened(alloc, program, quasts, opening)?;
    let accepted = with_branches(alloc, program, first, proposals, most)?;
    if accepted.text.len() <= most {
        return Ok(accepted);
    }
    shortened(alloc, program)
}

/// Source trees, those of written arrays blank but for the ones that the opening branch names.
fn short_trees(alloc: Global, program: &Program, opening: &Option<Branch>) -> Result<Quasts, Memory>
    ensures trees { IfOk result (λ quasts. HasTreesFor (meaning program.now) opening.now (trees_of quasts)) }
    ensures short { IfOk result (λ quasts. AreShortTrees (meaning program.now) (opening_terms opening.now) (trees_of quasts)) }
{
    match opening {
        Some(branch) => source_trees(alloc, program, Scope::Few(branch.terms.as_slice())),
        None => source_trees(alloc, program, Scope::Few(&[])),
    }
}

/// The certificate of the opening branch, where there is one, over such trees.
fn shortened(alloc: Global, program: &Program) -> Result<Accepted, Memory>
    ensures accepted { IfOk result (IsAccepted program.now) }
    ensures opening { IfOk result (λ accepted. BeginsWithOpening (meaning program.now) accepted.certificate.branches) }
    ensures short { IfOk result (λ accepted. AreShortParts (meaning program.now) accepted.certificate.branches (trees_of accepted.certificate.quasts)) }
{
    let first = opening(alloc, program)?;
    let quasts = short_trees(alloc, program, &first)?;
    opened(alloc, program, quasts, first)
}
