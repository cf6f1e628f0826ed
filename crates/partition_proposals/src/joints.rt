//! Joint terms, made of families in groups.

use crate::walks::{Shown, ShownStart, ShownWay};
use affine_facts::numbers::narrow;
use affine_form::{Form, Memory};
use joint_partition::{JointFamily, Labeling, Start, Way};
use reuse_paths::{FamilyNode, Region};
use std::alloc::Global;

/// The labels and the regions of nodes, each in a list.
#[derive(Drop)]
struct Divided {
    labels: Vec<Option<Box<Vec<Form>>>>,
    regions: Vec<Option<Box<Region>>>,
}

/// The labels and the regions of nodes.
fn labels_and_regions(alloc: Global, nodes: Vec<Option<FamilyNode>>) -> Result<Divided, Memory> {
    let mut labels = Vec::new(alloc);
    let mut regions = Vec::new(alloc);
    for node in nodes {
        match node {
            Some(FamilyNode { label, region }) => {
                labels.push(Some(Box::new(alloc, label)?))?;
                regions.push(region)?;
            }
            None => {
                labels.push(None)?;
                regions.push(None)?;
            }
        }
    }
    Ok(Divided { labels, regions })
}

/// The labelings and the ways of a family. The first way of a labeling has its labels.
fn labelings_and_ways(
    alloc: Global,
    shown: Vec<ShownWay>,
) -> Result<(Vec<Labeling>, Vec<Way>), Memory> {
    let mut labelings = Vec::new(alloc);
    let mut ways = Vec::new(alloc);
    for ShownWay {
        labeling,
        nodes,
        inputs,
    } in shown {
        let Divided { labels, regions } = labels_and_regions(alloc, nodes)?;
        if labeling >= labelings.len() {
            labelings.push(Labeling {
                nodes: labels,
                inputs,
            })?;
        }
        ways.push(Way {
            labels: narrow(labeling),
            regions,
        })?;
    }
    Ok((labelings, ways))
}

/// Starts as joint terms have them.
fn all_starts(alloc: Global, shown: Vec<ShownStart>) -> Result<Vec<Start>, Memory> {
    let mut all = Vec::new(alloc);
    for ShownStart { way, tree } in shown {
        let way = narrow(way);
        all.push(Start { way, tree })?;
    }
    Ok(all)
}

/// The family of a group.
fn joint_family(alloc: Global, shown: Shown, group: u8) -> Result<JointFamily, Memory> {
    let Shown {
        set,
        weight,
        starts,
        ways,
        ..
    } = shown;
    let (labels, ways) = labelings_and_ways(alloc, ways)?;
    Ok(JointFamily {
        group,
        scale: 1,
        set,
        weight,
        labels,
        ways,
        starts: all_starts(alloc, starts)?,
    })
}

/// Families in these groups.
pub(crate) fn joint_families(
    alloc: Global,
    families: Vec<Shown>,
    groups: &[u8],
) -> Result<Vec<JointFamily>, Memory> {
    let mut all = Vec::new(alloc);
    for (shown, group) in families.into_iter().zip(groups.iter()) {
        all.push(joint_family(alloc, shown, *group)?)?;
    }
    Ok(all)
}
