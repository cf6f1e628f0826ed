//! Wavefront terms, proposed.

use crate::fronts::claims_shown::{Way, edge, reach};
use crate::fronts::outlines::{Outline, outlines_of};
use crate::fronts::ways::Instance;
use affine_facts::affine::{Affine, copies};
use affine_facts::facts::Facts;
use affine_facts::inverses::{Undoing, scaled_matrix};
use affine_facts::nests::{counted, nest_rows};
use affine_facts::numbers::{narrow, short};
use affine_facts::shown::{Rows, all_forms, all_shown, followed};
use affine_facts::words::{Proposed, Words};
use affine_form::{Memory, Multipliers};
use affine_program::Program;
use domain_count::{Nest, Sums};
use iolb_model::limits;
use poly_tree::Poly;
use reuse_paths::{Leaf, Reach, Spot};
use std::alloc::Global;
use std::slice;
use wavefront::{Inverse, Wavefront};

/// The matrix that turns the word's loop values back into a number times the nest's variables.
fn inverse(alloc: Global, params: usize, outline: &Outline) -> Result<Option<Inverse>, Memory> {
    let vars = outline.bounds.len();
    match scaled_matrix(alloc, params, vars, outline.word.point.as_slice())? {
        Some(Undoing { matrix, scale }) => Ok(Some(Inverse { matrix, scale })),
        None => Ok(None),
    }
}

/// The rows which say that an instance is in its statement's domain, behind others.
fn domain_rows(
    alloc: Global,
    facts: &Facts,
    instance: &Instance,
    rows: Vec<Affine>,
) -> Result<Vec<Affine>, Memory> {
    let Some(own) = facts.statement(instance.statement) else {
        return Ok(rows);
    };
    let point = instance.point.as_slice();
    let domain = own.domain(alloc, facts.params, point)?;
    followed(alloc, rows, domain.as_slice())
}

/// What shows that the user, the vertex and the word are instances.
fn inside(
    alloc: Global,
    facts: &Facts,
    given: &Rows,
    outline: &Outline,
) -> Result<Option<Vec<Multipliers>>, Memory> {
    let mut goals = Vec::new(alloc);
    for instance in [&outline.user, &outline.vertex, &outline.word] {
        goals = domain_rows(alloc, facts, instance, goals)?;
    }
    all_shown(alloc, given, goals.as_slice())
}

/// What shows that the user, the vertex and the word are instances, and that the word is what the user reads.
fn points(
    alloc: Global,
    facts: &Facts,
    given: &Rows,
    outline: &Outline,
) -> Result<Option<(Vec<Multipliers>, Vec<Leaf>)>, Memory> {
    let Some(inside) = inside(alloc, facts, given, outline)? else {
        return Ok(None);
    };
    match edge(alloc, facts, given, outline)? {
        Some(edge) => Ok(Some((inside, edge))),
        None => Ok(None),
    }
}

/// An instance as a spot, where its forms are within the limits.
fn spot(alloc: Global, vars: usize, instance: &Instance) -> Result<Option<Spot>, Memory> {
    match all_forms(alloc, vars, instance.point.as_slice())? {
        Some(point) => Ok(Some(Spot {
            statement: instance.statement,
            point,
        })),
        None => Ok(None),
    }
}

/// The user, the vertex and the word, as spots.
#[derive(Drop)]
struct Spots {
    user: Spot,
    vertex: Spot,
    word: Spot,
}

fn spots_of(alloc: Global, vars: usize, outline: &Outline) -> Result<Option<Spots>, Memory> {
    let Some(user) = spot(alloc, vars, &outline.user)? else {
        return Ok(None);
    };
    let Some(vertex) = spot(alloc, vars, &outline.vertex)? else {
        return Ok(None);
    };
    let Some(word) = spot(alloc, vars, &outline.word)? else {
        return Ok(None);
    };
    Ok(Some(Spots { user, vertex, word }))
}

/// What shows the way back from the user to the vertex, and that from the vertex to the word.
fn ways(
    alloc: Global,
    facts: &Facts,
    given: &Rows,
    outline: &Outline,
) -> Result<Option<(Reach, Reach)>, Memory> {
    let to_vertex = Way {
        facts,
        nest: given,
        steps: slice::from_ref(&outline.back),
        target: &outline.vertex,
    };
    let Some(back) = reach(alloc, to_vertex)? else {
        return Ok(None);
    };
    let to_word = Way {
        facts,
        nest: given,
        steps: outline.steps.as_slice(),
        target: &outline.word,
    };
    match reach(alloc, to_word)? {
        Some(reach) => Ok(Some((back, reach))),
        None => Ok(None),
    }
}

/// The nest and its count, and the polynomials of the count of its outer variables.
fn counts(
    alloc: Global,
    program: &Program,
    outline: &Outline,
) -> Result<Option<(Nest, Sums, Vec<Poly>)>, Memory> {
    let bounds = outline.bounds.as_slice();
    let Some((nest, sums)) = counted(alloc, program, bounds)? else {
        return Ok(None);
    };
    let Some((first, _)) = bounds.split_at_checked(outline.outer) else {
        return Ok(None);
    };
    let Some((_, outer)) = counted(alloc, program, first)? else {
        return Ok(None);
    };
    let mut polynomials = Vec::new(alloc);
    for polynomial in outer.sums() {
        polynomials.push(polynomial.try_clone(alloc)?)?;
    }
    Ok(Some((nest, sums, polynomials)))
}

/// The words of a wavefront.
fn words(alloc: Global, given: Rows, outline: &Outline) -> Result<Vec<Words>, Memory> {
    let one = Words {
        of_cells: false,
        target: outline.word.statement,
        given,
        point: copies(alloc, outline.word.point.as_slice())?,
    };
    Ok(vec![in alloc; one]?)
}

/// The term of a wavefront, with all claims, where multipliers are found.
fn term_of(
    alloc: Global,
    program: &Program,
    facts: &Facts,
    outline: &Outline,
) -> Result<Option<Proposed<Wavefront>>, Memory> {
    let given = nest_rows(alloc, facts, outline.bounds.as_slice())?;
    let Some(inverse) = inverse(alloc, facts.params, outline)? else {
        return Ok(None);
    };
    let Some((inside, edge)) = points(alloc, facts, &given, outline)? else {
        return Ok(None);
    };
    let Some((back, reach)) = ways(alloc, facts, &given, outline)? else {
        return Ok(None);
    };
    let Some(Spots { user, vertex, word }) = spots_of(alloc, given.vars, outline)? else {
        return Ok(None);
    };
    let Some((nest, sums, outer_sums)) = counts(alloc, program, outline)? else {
        return Ok(None);
    };
    let term = Wavefront {
        nest,
        outer: narrow(outline.outer),
        sums,
        outer_sums,
        vertex,
        user,
        read: outline.read,
        source: Some(word),
        inside,
        inverse,
        edge,
        reach: Some(reach),
        back,
    };
    let words = words(alloc, given, outline)?;
    Ok(Some(Proposed { term, words }))
}

/// The wavefronts whose words a statement uses, with all claims, behind others.
fn terms_of(
    alloc: Global,
    program: &Program,
    facts: &Facts,
    outlines: &[Outline],
    mut all: Vec<Proposed<Wavefront>>,
) -> Result<Vec<Proposed<Wavefront>>, Memory> {
    for outline in outlines {
        if let Some(proposed) = term_of(alloc, program, facts, outline)? {
            all.push(proposed)?;
        }
    }
    Ok(all)
}

/// Wavefront terms: where a statement reads what a reduction or a recurrence ends with, and words from before that.
///
/// # Errors
///
/// Want of memory alone.
pub fn wavefronts(
    alloc: Global,
    program: &Program,
    facts: &Facts,
) -> Result<Vec<Proposed<Wavefront>>, Memory> {
    let mut all = Vec::new(alloc);
    for (number, own) in facts.statements.as_slice().iter().enumerate() {
        let outlines = outlines_of(alloc, facts, short(number), own)?;
        all = terms_of(alloc, program, facts, outlines.as_slice(), all)?;
    }
    Ok(all)
}
