//! Families with one start and one way, as partition terms have them.

use crate::walks::{Shown, ShownStart, ShownWay};
use affine_form::Memory;
use reuse_paths::{Family, FamilyNode};
use std::alloc::Global;

/// The nodes of a family, each in a box of its own.
fn boxed(
    alloc: Global,
    nodes: Vec<Option<FamilyNode>>,
) -> Result<Vec<Option<Box<FamilyNode>>>, Memory> {
    let mut all = Vec::new(alloc);
    for node in nodes {
        all.push(match node {
            Some(node) => Some(Box::new(alloc, node)?),
            None => None,
        })?;
    }
    Ok(all)
}

/// A family with one start and one way, as partition terms have it.
fn single(alloc: Global, shown: Shown) -> Result<Option<Family>, Memory> {
    let Shown {
        set,
        weight,
        start_label,
        mut starts,
        mut ways,
    } = shown;
    let (Some(ShownStart { tree, .. }), Some(ShownWay { nodes, inputs, .. })) = (
        starts.pop(),
        ways.pop(),
    ) else {
        return Ok(None);
    };
    Ok(Some(Family {
        scale: 1,
        set,
        weight,
        start_label,
        start: tree,
        nodes: boxed(alloc, nodes)?,
        inputs,
    }))
}

/// Families with one start and one way, as partition terms have them.
pub(crate) fn all_families(
    alloc: Global,
    families: Vec<Shown>,
) -> Result<Option<Vec<Family>>, Memory> {
    let mut all = Vec::new(alloc);
    for shown in families {
        match single(alloc, shown)? {
            Some(family) => all.push(family)?,
            None => return Ok(None),
        }
    }
    Ok(Some(all))
}
