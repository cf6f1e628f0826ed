//! Terms that are proposed, gathered for branches.

use affine_facts::facts::{Facts, facts_of};
use affine_facts::words::{Proposed, Words, apart, are_none_of, copied_words};
use affine_form::Memory;
use affine_program::Program;
use iolb_check::{Branch, Term};
use iolb_model::limits;
use partition_proposals::{Candidate, StretchTerm, candidates_of};
use reuse_paths::Quasts;
use std::alloc::Global;
use wavefront::Cold;
use wavefront_proposals::{Choice, Outline, cold_choice, cold_term, wavefronts};

/// Terms for one branch, and their words.
#[derive(Drop)]
struct Gathered {
    terms: Vec<Term>,
    taken: Vec<Vec<Words>>,
}

/// A term over stretches, as a branch has it.
fn term_of(term: StretchTerm) -> Term {
    match term {
        StretchTerm::Partition(partition) => Term::Partition(partition),
        StretchTerm::Joint(joint) => Term::Joint(joint),
    }
}

/// Terms over stretches with different words, strongest first; of several parts only where these may be.
fn stretches(
    alloc: Global,
    program: &Program,
    facts: &Facts,
    candidates: &[Candidate],
    with_parts: bool,
) -> Result<Gathered, Memory> {
    let mut terms = Vec::new(alloc);
    let mut taken: Vec<Vec<Words>> = Vec::new(alloc);
    for candidate in candidates {
        if terms.len() < limits::TERMS && (with_parts || !candidate.has_parts()) {
            if let Some(proposed) = candidate.beside(alloc, program, facts, taken.as_slice())? {
                terms.push(term_of(proposed.term))?;
                taken.push(proposed.words)?;
            }
        }
    }
    Ok(Gathered { terms, taken })
}

/// The wavefront terms whose words aren't taken, behind other terms.
fn with_wavefronts(
    alloc: Global,
    program: &Program,
    facts: &Facts,
    gathered: Gathered,
) -> Result<Gathered, Memory> {
    let Gathered {
        mut terms,
        mut taken,
    } = gathered;
    for proposed in wavefronts(alloc, program, facts)? {
        if terms.len() < limits::TERMS {
            let words = proposed.words.as_slice();
            if are_none_of(alloc, facts, words, taken.as_slice())? {
                terms.push(Term::Wavefront(proposed.term))?;
                taken.push(proposed.words)?;
            }
        }
    }
    Ok(Gathered { terms, taken })
}

/// The cold terms whose cells aren't taken, behind other terms.
fn with_colds(
    alloc: Global,
    program: &Program,
    facts: &Facts,
    colds: &[Outline],
    gathered: Gathered,
) -> Result<Gathered, Memory> {
    let Gathered {
        mut terms,
        mut taken,
    } = gathered;
    for outline in colds {
        let words = outline.words.as_slice();
        if terms.len() < limits::TERMS && are_none_of(alloc, facts, words, taken.as_slice())? {
            if let Some(cold) = cold_term(alloc, program, facts, outline)? {
                terms.push(Term::Cold(cold))?;
                taken.push(copied_words(alloc, words)?)?;
            }
        }
    }
    Ok(Gathered { terms, taken })
}

/// Cold terms and their words.
fn colds_alone(alloc: Global, colds: Vec<Cold>, chosen: &[Outline]) -> Result<Gathered, Memory> {
    let (mut terms, mut taken) = (Vec::new(alloc), Vec::new(alloc));
    for cold in colds {
        terms.push(Term::Cold(cold))?;
    }
    for outline in chosen {
        taken.push(copied_words(alloc, outline.words.as_slice())?)?;
    }
    Ok(Gathered { terms, taken })
}

/// Terms with the cold terms whose cells aren't taken behind: first of those that are chosen, then of the others.
fn with_all_colds(
    alloc: Global,
    program: &Program,
    facts: &Facts,
    chosen: &[Outline],
    others: &[Outline],
    gathered: Gathered,
) -> Result<Gathered, Memory> {
    let more = with_colds(alloc, program, facts, chosen, gathered)?;
    with_colds(alloc, program, facts, others, more)
}

/// Terms as a branch, where there are some, and their words are shown to differ.
fn proposal_of(alloc: Global, facts: &Facts, gathered: Gathered) -> Result<Option<Branch>, Memory> {
    let Gathered { terms, taken } = gathered;
    if terms.is_empty() {
        return Ok(None);
    }
    match apart(alloc, facts, taken.as_slice())? {
        Some(disjoint) => Ok(Some(Branch { terms, disjoint })),
        None => Ok(None),
    }
}

/// No terms.
fn nothing(alloc: Global) -> Gathered {
    Gathered {
        terms: Vec::new(alloc),
        taken: Vec::new(alloc),
    }
}

/// A term over stretches and its words.
fn alone(alloc: Global, proposed: Proposed<StretchTerm>) -> Result<Gathered, Memory> {
    let Proposed { term, words } = proposed;
    Ok(Gathered {
        terms: vec![in alloc; term_of(term)]?,
        taken: vec![in alloc; words]?,
    })
}

/// Those that have terms.
fn without_empty(alloc: Global, all: Vec<Gathered>) -> Result<Vec<Gathered>, Memory> {
    let mut some = Vec::new(alloc);
    for gathered in all {
        if !gathered.terms.is_empty() {
            some.push(gathered)?;
        }
    }
    Ok(some)
}

/// Terms over stretches and then wavefront terms with different words together.
fn together(
    alloc: Global,
    program: &Program,
    facts: &Facts,
    candidates: &[Candidate],
    with_parts: bool,
) -> Result<Gathered, Memory> {
    let some = stretches(alloc, program, facts, candidates, with_parts)?;
    with_wavefronts(alloc, program, facts, some)
}

/// Terms for branches, before cold terms are added, where there are some: terms over stretches and then wavefront terms with different
/// words together, where they are several, with and without those of several parts; wavefront terms alone.
fn mixed(
    alloc: Global,
    program: &Program,
    facts: &Facts,
    candidates: &[Candidate],
) -> Result<Vec<Gathered>, Memory> {
    let mut all = Vec::new(alloc);
    if candidates.iter().any(|candidate| candidate.has_parts()) {
        let first = together(alloc, program, facts, candidates, true)?;
        if first.terms.len() > 1 {
            all.push(first)?;
        }
    }
    if !candidates.is_empty() {
        let second = together(alloc, program, facts, candidates, false)?;
        if second.terms.len() > 1 {
            all.push(second)?;
        }
    }
    all.push(with_wavefronts(alloc, program, facts, nothing(alloc))?)?;
    without_empty(alloc, all)
}

/// Terms for branches: mixed ones; cold terms alone; then each term over stretches by itself, strongest first. In each but that of cold
/// terms the cold terms whose cells differ from what is counted stand behind.
fn gatherings(alloc: Global, program: &Program, facts: &Facts) -> Result<Vec<Gathered>, Memory> {
    let Choice {
        terms,
        chosen,
        others,
    } = cold_choice(alloc, program, facts)?;
    let (chosen, others) = (chosen.as_slice(), others.as_slice());
    let candidates = candidates_of(alloc, program, facts)?;
    let mut all = Vec::new(alloc);
    for some in mixed(alloc, program, facts, candidates.as_slice())? {
        all.push(with_all_colds(alloc, program, facts, chosen, others, some)?)?;
    }
    all.push(colds_alone(alloc, terms, chosen)?)?;
    for candidate in candidates {
        let some = alone(alloc, candidate.proposed)?;
        all.push(with_all_colds(alloc, program, facts, chosen, others, some)?)?;
    }
    Ok(all)
}

/// Branches: terms over stretches and then wavefront terms with different words together, where they are several; wavefront terms
/// alone; cold terms alone; then each term over stretches by itself, strongest first. In each the cold terms whose cells differ from
/// what is counted stand behind. Nothing is promised of them.
pub(crate) fn proposals(
    alloc: Global,
    program: &Program,
    quasts: &Quasts,
) -> Result<Vec<Branch>, Memory> {
    let facts = facts_of(alloc, program, quasts)?;
    let mut all = Vec::new(alloc);
    for gathered in gatherings(alloc, program, &facts)? {
        if let Some(proposal) = proposal_of(alloc, &facts, gathered)? {
            all.push(proposal)?;
        }
    }
    Ok(all)
}
