//! Cold terms, with all that they claim, as far as multipliers are found.

use crate::cold::outlines::Outline;
use affine_facts::facts::{Facts, Origin, ReadFacts};
use affine_facts::leaves::{empty_entry, with_tests};
use affine_facts::nests::{counted, nest_rows};
use affine_facts::shown::{Rows, all_forms, all_shown};
use affine_form::{Memory, Multipliers};
use affine_program::Program;
use reuse_paths::Leaf;
use std::alloc::Global;
use wavefront::{Cold, Inverse};

/// The entries at the leaves of a read's tree: an input, or no point comes.
fn entries(
    alloc: Global,
    params: usize,
    given: &Rows,
    read: &ReadFacts,
    outline: &Outline,
) -> Result<Option<Vec<Leaf>>, Memory> {
    let mut all = Vec::new(alloc);
    for leaf in read.leaves.as_slice() {
        if matches!(leaf.origin, Origin::Input) {
            let label = Vec::new(alloc);
            all.push(Leaf::Stop { label })?;
        } else {
            let rows = with_tests(alloc, params, given, leaf, outline.point.as_slice())?;
            match empty_entry(alloc, &rows)? {
                Some(entry) => all.push(entry)?,
                None => return Ok(None),
            }
        }
    }
    Ok(Some(all))
}

/// What shows that the points are instances, and what they read inputs.
fn points(
    alloc: Global,
    facts: &Facts,
    given: &Rows,
    outline: &Outline,
) -> Result<Option<(Vec<Multipliers>, Vec<Leaf>)>, Memory> {
    let Some(own) = facts.statement(outline.statement) else {
        return Ok(None);
    };
    let Some(read) = facts.read(outline.statement, outline.read) else {
        return Ok(None);
    };
    let point = outline.point.as_slice();
    let goals = own.domain(alloc, facts.params, point)?;
    let Some(inside) = all_shown(alloc, given, goals.as_slice())? else {
        return Ok(None);
    };
    match entries(alloc, facts.params, given, read, outline)? {
        Some(leaves) => Ok(Some((inside, leaves))),
        None => Ok(None),
    }
}

/// The cold term of an outline, where multipliers are found for all that it claims.
///
/// # Errors
///
/// Want of memory alone.
pub fn cold_term(
    alloc: Global,
    program: &Program,
    facts: &Facts,
    outline: &Outline,
) -> Result<Option<Cold>, Memory> {
    let bounds = outline.bounds.as_slice();
    let given = nest_rows(alloc, facts, bounds)?;
    let Some((inside, leaves)) = points(alloc, facts, &given, outline)? else {
        return Ok(None);
    };
    let Some(point) = all_forms(alloc, given.vars, outline.point.as_slice())? else {
        return Ok(None);
    };
    let Some((nest, sums)) = counted(alloc, program, bounds)? else {
        return Ok(None);
    };
    let matrix = outline.undoing.matrix.try_clone(alloc)?;
    let scale = outline.undoing.scale;
    Ok(Some(Cold {
        statement: outline.statement,
        read: outline.read,
        nest,
        sums,
        point,
        inside,
        inverse: Inverse { matrix, scale },
        leaves,
    }))
}
