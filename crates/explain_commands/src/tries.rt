//! What was tried for a bound that is made.

use affine_form::Memory;
use affine_program::Program;
use asked_systems::index_at;
use claims::{FailedCondition, Refused};
use find_terms::{ProposedBranches, candidates};
use help_pages::condition_of;
use iolb_check::{Branch, Certificate, Term, check};
use plain_pages::Page;
use reuse_paths::Quasts;
use std::alloc::Global;

/// Whether terms are cold ones alone.
fn are_cold(terms: &[Term]) -> bool {
    for term in terms {
        match term {
            Term::Cold(_) => {}
            Term::Joint(_) | Term::Partition(_) | Term::Wavefront(_) => return false,
        }
    }
    true
}

/// Whether branches have cold terms alone.
fn have_cold_terms_alone(branches: &[Branch]) -> bool {
    for branch in branches {
        if !are_cold(branch.terms.as_slice()) {
            return false;
        }
    }
    true
}

/// The term in which a condition fails, by its place `branches/0/terms/N/..`.
fn failed_term<'a>(terms: &'a [Term], failed: &FailedCondition) -> Option<&'a Term> {
    terms.get(index_at(failed.place.steps(), 3)?)
}

/// Writes what kind of term is meant, and of which statement.
fn write_kind(page: &mut Page, term: &Term) -> Result<(), Memory> {
    let alloc = page.alloc();
    let words = match term {
        Term::Cold(cold) => format!(in alloc; "a cold term of statement {}", cold.statement)?,
        Term::Joint(_) => format!(in alloc; "a joint term")?,
        Term::Partition(own) => format!(in alloc;
            "a partition term of statement {}",
            own.statement
        )?,
        Term::Wavefront(front) => {
            format!(in alloc; "a wavefront term of statement {}", front.user.statement)?
        }
    };
    page.text(words.as_str())?;
    Ok(())
}

/// Writes which condition a branch that was tried fails, and in which term.
fn write_failure(page: &mut Page, terms: &[Term], failed: &FailedCondition) -> Result<(), Memory> {
    let alloc = page.alloc();
    page.text("tried, and not shown: ")?;
    match failed_term(terms, failed) {
        Some(term) => write_kind(page, term)?,
        None => page.text("a branch of several terms")?,
    }
    let number = failed.condition;
    page.text(format!(in alloc; ", by condition {number}")?.as_str())?;
    match condition_of(u64::from(number)) {
        Some(condition) => {
            let holds = condition.holds;
            page.line(format!(in alloc; ": {holds}")?.as_str())?;
        }
        None => page.line("")?,
    }
    Ok(())
}

/// Tries a branch over source trees: where the checker refuses it, it is told. The trees once more.
fn try_branch(
    alloc: Global,
    page: &mut Page,
    program: &Program,
    quasts: Quasts,
    branch: Branch,
) -> Result<Quasts, Memory> {
    let mut branches = Vec::new(alloc);
    branches.push(branch)?;
    let Some(certificate) = Certificate::new(quasts, branches) else {
        return Ok(Quasts::new(Vec::new(alloc)));
    };
    match check(alloc, program, &certificate) {
        Ok(_bound) => page.line("tried, and shown, but there was no room for it")?,
        Err(Refused::Failed(failed)) => {
            if let Some(branch) = certificate.branches().first() {
                write_failure(page, branch.terms.as_slice(), &failed)?;
            }
        }
        Err(Refused::Memory) => return Err(Memory),
    }
    let (quasts, _branches) = certificate.parts();
    Ok(quasts)
}

/// Writes of a certificate that was made for a program, where it has no term but cold ones, what else was tried.
pub(crate) fn write_tries(
    alloc: Global,
    page: &mut Page,
    program: &Program,
    made: Certificate,
) -> Result<(), Memory> {
    if !have_cold_terms_alone(made.branches()) {
        return Ok(());
    }
    let (mut quasts, _branches) = made.parts();
    let ProposedBranches { opening, proposals } = candidates(alloc, program, &quasts)?;
    if opening.is_none() {
        page.line(
            "no read is plain: its array not written before, its subscripts different loops, and its claims shown by short lists of multipliers",
        )?;
    }
    if proposals.is_empty() {
        page.line("nothing else was found to be tried")?;
    }
    for branch in proposals {
        quasts = try_branch(alloc, page, program, quasts, branch)?;
    }
    Ok(())
}
