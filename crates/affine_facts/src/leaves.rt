//! What is claimed at the leaves of source trees at some points.

use crate::affine::{Affine, copies};
use crate::facts::TreeLeaf;
use crate::shown::{Rows, all_put, followed, no_point};
use affine_form::Memory;
use reuse_paths::Leaf;
use std::alloc::Global;

/// Rows, and those of the tests before a leaf, with values put in.
pub fn with_tests(
    alloc: Global,
    params: usize,
    given: &Rows,
    leaf: &TreeLeaf,
    values: &[Affine],
) -> Result<Rows, Memory> {
    let tests = all_put(alloc, params, leaf.tests.as_slice(), values)?;
    let rows = copies(alloc, given.rows.as_slice())?;
    Ok(Rows {
        vars: given.vars,
        rows: followed(alloc, rows, tests.as_slice())?,
    })
}

/// The entry at a leaf to which no point comes.
pub fn empty_entry(alloc: Global, given: &Rows) -> Result<Option<Leaf>, Memory> {
    match no_point(alloc, given)? {
        Some(shown) => Ok(Some(Leaf::Empty(shown))),
        None => Ok(None),
    }
}
