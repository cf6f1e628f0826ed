//! Schemes of terms: the points of parts over some coordinates, and families that cover these.

use crate::choices::{choices, cover, weighted, with_tried};
use crate::coordinates::Coordinates;
use crate::drafts::{Draft, all_copied};
use crate::points::{Points, all_points, points_over};
use affine_facts::facts::Facts;
use affine_form::Memory;
use std::alloc::Global;

/// A family: how its walks go from each part.
#[derive(Drop)]
pub(crate) struct Plan {
    pub(crate) drafts: Vec<Draft>,
}

/// The parts of a term, over coordinates, and its families with their weights, by which each coordinate is covered `q` times; and how
/// many images there are for each instance of the first part's statement, by a rough count.
#[derive(Drop)]
pub(crate) struct Scheme {
    pub(crate) kind: Coordinates,
    pub(crate) images: u32,
    pub(crate) parts: Vec<Points>,
    pub(crate) plans: Vec<Plan>,
    pub(crate) weights: Vec<u8>,
    pub(crate) q: u8,
}

impl Scheme {
    /// The weights added up.
    pub(crate) fn weight(&self) -> u32 {
        let mut sum: u32 = 0;
        for weight in self.weights.as_slice() {
            sum = sum.saturating_add(u32::from(*weight));
        }
        sum
    }

    /// How many coordinates there are.
    pub(crate) fn depth(&self) -> usize {
        match self.parts.as_slice().first() {
            Some(points) => points.bounds.len(),
            None => 0,
        }
    }
}

/// Families, each of one draft.
fn plans_of(alloc: Global, drafts: Vec<Draft>) -> Result<Vec<Plan>, Memory> {
    let mut all = Vec::new(alloc);
    for draft in drafts {
        all.push(Plan {
            drafts: vec![in alloc; draft]?,
        })?;
    }
    Ok(all)
}

/// The scheme of families chosen of these, where they cover the coordinates of points.
fn covering(
    alloc: Global,
    kind: Coordinates,
    points: &Points,
    drafts: Vec<Draft>,
) -> Result<Option<Scheme>, Memory> {
    let Some((weights, q)) = cover(alloc, drafts.as_slice(), points.bounds.len())? else {
        return Ok(None);
    };
    let (drafts, weights) = weighted(alloc, drafts, weights.as_slice())?;
    Ok(Some(Scheme {
        kind,
        images: 1,
        parts: vec![in alloc; points.copied(alloc)?]?,
        plans: plans_of(alloc, drafts)?,
        weights,
        q,
    }))
}

/// Whether the exponent of a scheme is less than that of another one, if there is one.
fn is_lesser(scheme: &Scheme, other: &Option<Scheme>) -> bool {
    let Some(other) = other else {
        return true;
    };
    let (own, its) = (u32::from(scheme.q), u32::from(other.q));
    scheme.weight().saturating_mul(its) < other.weight().saturating_mul(own)
}

/// The scheme of all instances of a statement over these coordinates, where there is one.
pub(crate) fn scheme_of(
    alloc: Global,
    facts: &Facts,
    kind: Coordinates,
    statement: u16,
) -> Result<Option<Scheme>, Memory> {
    let Some(points) = points_over(alloc, facts, statement, kind)? else {
        return Ok(None);
    };
    if let Coordinates::Timed(_, _) = kind {
        let tried = with_tried(alloc, facts, &points, Vec::new(alloc))?;
        return covering(alloc, kind, &points, tried);
    }
    let best = choices(alloc, facts, &points)?;
    let first = covering(alloc, kind, &points, all_copied(alloc, best.as_slice())?)?;
    let count = best.len();
    let tried = with_tried(alloc, facts, &points, best)?;
    if tried.len() == count {
        return Ok(first);
    }
    match covering(alloc, kind, &points, tried)? {
        Some(scheme) if is_lesser(&scheme, &first) => Ok(Some(scheme)),
        _ => Ok(first),
    }
}

/// The families of a scheme, and of each the draft for a part more.
fn longer_plans(alloc: Global, plans: &[Plan], drafts: Vec<Draft>) -> Result<Vec<Plan>, Memory> {
    let mut all = Vec::new(alloc);
    for (plan, draft) in plans.iter().zip(drafts) {
        let mut own = all_copied(alloc, plan.drafts.as_slice())?;
        own.push(draft)?;
        all.push(Plan { drafts: own })?;
    }
    Ok(all)
}

/// A scheme over these parts, of which the last is a part more, with the drafts of each family for it.
pub(crate) fn longer(
    alloc: Global,
    scheme: &Scheme,
    parts: &[Points],
    drafts: Vec<Draft>,
) -> Result<Scheme, Memory> {
    Ok(Scheme {
        kind: scheme.kind,
        images: scheme.images.saturating_add(1),
        parts: all_points(alloc, parts)?,
        plans: longer_plans(alloc, scheme.plans.as_slice(), drafts)?,
        weights: Vec::from_slice(alloc, scheme.weights.as_slice())?,
        q: scheme.q,
    })
}
