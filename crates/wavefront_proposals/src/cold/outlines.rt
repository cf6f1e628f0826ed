//! Cold terms, thought out without multipliers.

use crate::cold::pieces::{Piece, placed, settled};
use affine_facts::affine::{Affine, copies};
use affine_facts::facts::{Facts, Origin, ReadFacts, StatementFacts, TreeLeaf};
use affine_facts::fitted::fitted;
use affine_facts::inverses::{Undoing, scaled_matrix};
use affine_facts::leaves::with_tests;
use affine_facts::nests::{copied_bounds, is_empty, nest_rows};
use affine_facts::placed::PlacedNest;
use affine_facts::shown::{Rows, all_put};
use affine_facts::words::Words;
use affine_form::Memory;
use std::alloc::Global;

/// A cold term: the read and its array, the bounds of the nest, the reader's loop values and the cell's subscripts at its points,
/// what turns these back into the nest's variables, and the cells that it counts.
#[derive(Drop)]
pub struct Outline {
    pub(crate) statement: u16,
    pub(crate) read: u16,
    pub(crate) array: u16,
    pub(crate) bounds: Vec<(Affine, Affine)>,
    pub(crate) point: Vec<Affine>,
    pub(crate) cell: Vec<Affine>,
    pub(crate) undoing: Undoing,
    pub words: Vec<Words>,
}

/// The nest of a piece, tightened until its points are seen to be instances and each range to be whole.
fn nest_of(
    alloc: Global,
    facts: &Facts,
    own: &StatementFacts,
    piece: &Piece,
) -> Result<Option<PlacedNest>, Memory> {
    let bounds = copied_bounds(alloc, piece.bounds.as_slice())?;
    match fitted(alloc, facts, bounds, own)? {
        Some(bounds) => {
            let bounds = settled(alloc, facts.params, bounds.as_slice())?;
            Ok(Some(placed(alloc, facts.params, bounds.as_slice())?))
        }
        None => Ok(None),
    }
}

/// The cells that are read at a leaf whose source is an input, at points of a nest.
fn cells_at(
    alloc: Global,
    params: usize,
    given: &Rows,
    leaf: &TreeLeaf,
    point: &[Affine],
    array: u16,
    cell: &[Affine],
) -> Result<Words, Memory> {
    Ok(Words {
        of_cells: true,
        target: array,
        given: with_tests(alloc, params, given, leaf, point)?,
        point: copies(alloc, cell)?,
    })
}

/// All cells that a read takes from the input, at points of a nest.
fn cells_of(
    alloc: Global,
    facts: &Facts,
    read: &ReadFacts,
    given: &Rows,
    point: &[Affine],
    cell: &[Affine],
) -> Result<Vec<Words>, Memory> {
    let array = read.access.array;
    let mut all = Vec::new(alloc);
    for leaf in read.leaves.as_slice() {
        if matches!(leaf.origin, Origin::Input) {
            all.push(cells_at(alloc, facts.params, given, leaf, point, array, cell)?)?;
        }
    }
    Ok(all)
}

/// The cold term of a piece.
pub(crate) fn outline_of(
    alloc: Global,
    facts: &Facts,
    piece: &Piece,
) -> Result<Option<Outline>, Memory> {
    let (statement, read) = (piece.statement, piece.read);
    let Some(own) = facts.statement(statement) else {
        return Ok(None);
    };
    let Some(taken) = facts.read(statement, read) else {
        return Ok(None);
    };
    let Some(PlacedNest { bounds, values }) = nest_of(alloc, facts, own, piece)? else {
        return Ok(None);
    };
    if is_empty(alloc, bounds.as_slice())? {
        return Ok(None);
    }
    let subs = taken.access.subs.as_slice();
    let cell = all_put(alloc, facts.params, subs, values.as_slice())?;
    let found = scaled_matrix(alloc, facts.params, bounds.len(), cell.as_slice())?;
    let Some(undoing) = found else {
        return Ok(None);
    };
    let given = nest_rows(alloc, facts, bounds.as_slice())?;
    let point = values.as_slice();
    let words = cells_of(alloc, facts, taken, &given, point, cell.as_slice())?;
    Ok(Some(Outline {
        statement,
        read,
        array: taken.access.array,
        bounds,
        point: values,
        cell,
        undoing,
        words,
    }))
}
