//! How long lists of families and of splits of joint terms have to be.

use crate::images::parts_at;
use crate::joint_families::{entered, labeling_of, region_of, walking_in};
use crate::lengths::{form_length, input_length, label_length, region_length, walk_length};
use affine_form::Memory;
use affine_program::Program;
use asked_systems::{behind, index_at, key_at};
use certificate_fit::counts::loops_around;
use claims::Step;
use dep_quast::Quasts;
use domain_count::Nest;
use joint_partition::{Joint, JointFamily};
use reuse_paths::label_in;
use std::alloc::Global;

/// How long the list at a place of the labels of instances has to be, behind `nodes`.
fn node_length(program: &Program, family: &JointFamily, steps: &[Step]) -> Option<usize> {
    let Some(number) = index_at(steps, 0) else {
        return Some(program.statements().len());
    };
    let statement = u16::try_from(number).ok()?;
    let loops = loops_around(program, statement);
    let vars = program.params().len().saturating_add(loops);
    label_length(&family.set, vars, behind(steps, 1))
}

/// How long the list at a place of a labeling has to be, behind `labels`.
fn labeling_length(program: &Program, family: &JointFamily, steps: &[Step]) -> Option<usize> {
    let rest = behind(steps, 2);
    match key_at(steps, 1) {
        Some("inputs") => input_length(program, &family.set, rest),
        Some("nodes") => node_length(program, family, rest),
        _ => None,
    }
}

/// How long the list at a place of a start has to be, behind `starts`: themselves, one for each part, or one of a tree.
fn start_length(
    alloc: Global,
    program: &Program,
    quasts: &Quasts,
    term: &Joint,
    family: &JointFamily,
    steps: &[Step],
) -> Result<Option<usize>, Memory> {
    let Some(number) = index_at(steps, 0) else {
        return Ok(Some(term.parts.len()));
    };
    let (Some(part), Some(start)) = (term.parts.get(number), family.starts.get(number)) else {
        return Ok(None);
    };
    let Some((way, labeling)) = entered(family, start) else {
        return Ok(None);
    };
    let none = Nest::new(Vec::new(alloc));
    // One form for each member of the set, as a start label has.
    let label = part
        .image
        .as_slice()
        .get(..family.set.coords().len())
        .unwrap_or(&[]);
    let credits = term.credits.as_slice();
    let walking = walking_in(program, quasts, &none, credits, way, labeling, label, 1);
    let rest = behind(steps, 2);
    walk_length(alloc, &walking, part.statement, &start.tree, rest)
}

/// How long the list at a place of a way has to be, behind `ways`: that of its regions, one for each statement, or one of a region.
fn way_length(
    alloc: Global,
    program: &Program,
    quasts: &Quasts,
    term: &Joint,
    family: &JointFamily,
    steps: &[Step],
) -> Result<Option<usize>, Memory> {
    let Some(number) = index_at(steps, 2) else {
        return Ok(Some(program.statements().len()));
    };
    let Some(way) = family.ways.get(index_at(steps, 0).unwrap_or(0)) else {
        return Ok(None);
    };
    let (Some(labeling), Some((statement, region))) = (
        labeling_of(family, way),
        region_of(way, number),
    ) else {
        return Ok(None);
    };
    let none = Nest::new(Vec::new(alloc));
    let label = label_in(labeling.nodes.as_slice(), statement).unwrap_or(&[]);
    let credits = term.credits.as_slice();
    let walking = walking_in(program, quasts, &none, credits, way, labeling, label, 1);
    let rest = behind(steps, 3);
    region_length(alloc, &walking, statement, region, rest)
}

/// How long the list at a place of a family of a joint term has to be, where that is known.
pub fn joint_family_length(
    alloc: Global,
    program: &Program,
    quasts: &Quasts,
    term: &Joint,
    family: &JointFamily,
    steps: &[Step],
) -> Result<Option<usize>, Memory> {
    let rest = behind(steps, 1);
    match key_at(steps, 0) {
        Some("labels") => Ok(labeling_length(program, family, rest)),
        Some("starts") => start_length(alloc, program, quasts, term, family, rest),
        Some("ways") => way_length(alloc, program, quasts, term, family, rest),
        _ => Ok(None),
    }
}

/// How long the list of splits has to be, one for each pair of parts, or a form in one, behind `distinct`.
pub fn split_length(program: &Program, term: &Joint, steps: &[Step]) -> Option<usize> {
    let parts = term.parts.as_slice();
    let Some(number) = index_at(steps, 0) else {
        let count = parts.len();
        return Some(count.saturating_mul(count.saturating_sub(1)) / 2);
    };
    let (first, second) = parts_at(parts, number)?;
    if key_at(steps, steps.len().saturating_sub(1)) != Some("form") {
        return None;
    }
    let own = loops_around(program, first.statement);
    let vars = own.saturating_add(loops_around(program, second.statement));
    Some(form_length(program.params().len(), vars))
}
