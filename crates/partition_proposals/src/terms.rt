//! Terms over stretches, proposed.

use crate::apart::{Tried, codes};
use crate::entries::Work;
use crate::families::Families;
use crate::gains::best_code;
use crate::groups::{apart_by_words, are_several, groups_of, groups_shown};
use crate::joints::joint_families;
use crate::making::made_by;
use crate::points::{Points, all_images_apart};
use crate::schemes::Scheme;
use crate::singles::all_families;
use crate::strength::StretchTerm;
use crate::walks::Shown;
use affine_facts::affine::loops;
use affine_facts::facts::Facts;
use affine_facts::inverses::scaled_matrix;
use affine_facts::nests::{counted, nest_rows};
use affine_facts::shown::{all_forms, all_shown};
use affine_facts::words::{Proposed, Words, apart, are_none_of, joined};
use affine_form::{Memory, Multipliers};
use affine_program::Program;
use domain_count::{Nest, Sums};
use iolb_model::limits;
use joint_partition::limits::JOINT_WEIGHTS;
use joint_partition::{Joint, Part};
use k_partition::{Partition, Shape};
use reuse_paths::Credit;
use std::alloc::Global;
use wavefront::Inverse;

/// The credits of a work, counted.
fn credits(alloc: Global, program: &Program, work: &Work) -> Result<Option<Vec<Credit>>, Memory> {
    let mut all = Vec::new(alloc);
    for stop in work.stops.as_slice() {
        let Some((nest, sums)) = counted(alloc, program, stop.bounds.as_slice())? else {
            return Ok(None);
        };
        all.push(Credit {
            statement: stop.statement,
            nest,
            sums,
        })?;
    }
    Ok(Some(all))
}

/// How many events a stretch has for each red pebble.
fn events(q: u8, total: u32) -> u8 {
    let total = u8::try_from(total).unwrap_or(u8::MAX);
    if total <= q {
        return 16;
    }
    match q.checked_div(total.saturating_sub(q)) {
        Some(many) => many.max(1).min(limits::STRETCH),
        None => 1,
    }
}

/// What shows that points are instances of their statement.
fn inside(
    alloc: Global,
    facts: &Facts,
    points: &Points,
) -> Result<Option<Vec<Multipliers>>, Memory> {
    let Some(own) = facts.statement(points.statement) else {
        return Ok(None);
    };
    let given = nest_rows(alloc, facts, points.bounds.as_slice())?;
    let values = loops(alloc, facts.params, own.depth())?;
    let goals = own.domain(alloc, facts.params, values.as_slice())?;
    all_shown(alloc, &given, goals.as_slice())
}

/// Points with their claims: the nest with its counts, and what shows that they are instances.
#[derive(Drop)]
struct CountedPoints {
    nest: Nest,
    sums: Sums,
    inside: Vec<Multipliers>,
}

/// Points with their claims.
fn counted_points(
    alloc: Global,
    program: &Program,
    facts: &Facts,
    points: &Points,
) -> Result<Option<CountedPoints>, Memory> {
    let Some(inside) = inside(alloc, facts, points)? else {
        return Ok(None);
    };
    match counted(alloc, program, points.bounds.as_slice())? {
        Some((nest, sums)) => Ok(Some(CountedPoints { nest, sums, inside })),
        None => Ok(None),
    }
}

/// The partition term of families over the one part of a work.
fn partition_term(
    alloc: Global,
    program: &Program,
    facts: &Facts,
    scheme: &Scheme,
    work: &Work,
    shape: Shape,
    families: Vec<Shown>,
    apart: Vec<Multipliers>,
) -> Result<Option<Partition>, Memory> {
    let Some(points) = work.parts.as_slice().first() else {
        return Ok(None);
    };
    let depth = points.bounds.len();
    let (Some(counted), Some(credits), Some(families), Some(undoing)) = (
        counted_points(alloc, program, facts, points)?,
        credits(alloc, program, work)?,
        all_families(alloc, families)?,
        scaled_matrix(alloc, facts.params, depth, points.image.as_slice())?,
    ) else {
        return Ok(None);
    };
    if undoing.scale != 1 {
        return Ok(None);
    }
    let CountedPoints { nest, sums, inside } = counted;
    Ok(Some(Partition {
        statement: points.statement,
        nest,
        sums,
        inside,
        matrix: scheme.kind.matrix(alloc, depth)?,
        inverse: undoing.matrix,
        q: scheme.q,
        shape,
        a: events(scheme.q, scheme.weight()),
        b: 0,
        credits,
        families,
        apart,
    }))
}

/// The part of points.
fn part_of(
    alloc: Global,
    program: &Program,
    facts: &Facts,
    points: &Points,
) -> Result<Option<Part>, Memory> {
    let depth = points.bounds.len();
    let image = points.image.as_slice();
    let vars = facts.params.saturating_add(depth);
    let (Some(counted), Some(image), Some(undoing)) = (
        counted_points(alloc, program, facts, points)?,
        all_forms(alloc, vars, image)?,
        scaled_matrix(alloc, facts.params, depth, image)?,
    ) else {
        return Ok(None);
    };
    let CountedPoints { nest, sums, inside } = counted;
    Ok(Some(Part {
        statement: points.statement,
        nest,
        sums,
        inside,
        image,
        inverse: Inverse {
            matrix: undoing.matrix,
            scale: undoing.scale,
        },
    }))
}

/// The parts of points.
fn all_parts(
    alloc: Global,
    program: &Program,
    facts: &Facts,
    parts: &[Points],
) -> Result<Option<Vec<Part>>, Memory> {
    let mut all = Vec::new(alloc);
    for points in parts {
        match part_of(alloc, program, facts, points)? {
            Some(part) => all.push(part)?,
            None => return Ok(None),
        }
    }
    Ok(Some(all))
}

/// The joint term of families in groups.
fn joint_term(
    alloc: Global,
    program: &Program,
    facts: &Facts,
    scheme: &Scheme,
    work: &Work,
    families: Vec<Shown>,
    groups: &[u8],
    apart: Vec<Multipliers>,
) -> Result<Option<Joint>, Memory> {
    let (Some(parts), Some(distinct), Some(credits)) = (
        all_parts(alloc, program, facts, work.parts.as_slice())?,
        all_images_apart(alloc, facts, work.parts.as_slice())?,
        credits(alloc, program, work)?,
    ) else {
        return Ok(None);
    };
    Ok(Some(Joint {
        parts,
        distinct,
        q: scheme.q,
        a: events(scheme.q, scheme.weight()),
        b: 0,
        credits,
        families: joint_families(alloc, families, groups)?,
        apart,
    }))
}

/// How the families of a term stand to each other: all apart, in groups that are apart, or each by itself.
#[derive(Drop)]
enum Standing {
    Apart(Vec<Multipliers>),
    Grouped(Vec<u8>, Vec<Multipliers>),
    Each,
}

/// The term of families.
fn term(
    alloc: Global,
    program: &Program,
    facts: &Facts,
    scheme: &Scheme,
    work: &Work,
    families: Vec<Shown>,
    standing: Standing,
) -> Result<Option<StretchTerm>, Memory> {
    let (shape, apart) = match standing {
        Standing::Grouped(groups, apart) => {
            let groups = groups.as_slice();
            let found = joint_term(alloc, program, facts, scheme, work, families, groups, apart)?;
            return Ok(found.map(StretchTerm::Joint));
        }
        Standing::Apart(apart) => (Shape::Sum, apart),
        Standing::Each => (Shape::Each, Vec::new(alloc)),
    };
    let made = partition_term(alloc, program, facts, scheme, work, shape, families, apart)?;
    Ok(made.map(StretchTerm::Partition))
}

/// The term of families, where none of its words is taken.
fn whole(
    alloc: Global,
    program: &Program,
    facts: &Facts,
    scheme: &Scheme,
    made: Families,
    standing: Standing,
    taken: &[Vec<Words>],
) -> Result<Option<Proposed<StretchTerm>>, Memory> {
    let Families {
        families,
        words,
        work,
    } = made;
    let words = joined(alloc, words)?;
    if !are_none_of(alloc, facts, words.as_slice(), taken)? {
        return Ok(None);
    }
    match term(alloc, program, facts, scheme, &work, families, standing)? {
        Some(term) => Ok(Some(Proposed { term, words })),
        None => Ok(None),
    }
}

/// The families by the ways of a code, and what shows that they are apart.
fn made_apart(
    alloc: Global,
    facts: &Facts,
    scheme: &Scheme,
    code: u32,
) -> Result<Option<(Families, Vec<Multipliers>)>, Memory> {
    let Some(made) = made_by(alloc, facts, scheme, code)? else {
        return Ok(None);
    };
    match apart(alloc, facts, made.words.as_slice())? {
        Some(shown) => Ok(Some((made, shown))),
        None => Ok(None),
    }
}

/// The term of families that are apart by some ways, the first such whose words aren't taken.
fn term_apart(
    alloc: Global,
    program: &Program,
    facts: &Facts,
    scheme: &Scheme,
    tried: &Tried,
    taken: &[Vec<Words>],
) -> Result<Option<Proposed<StretchTerm>>, Memory> {
    let free = tried.free_ways(alloc, facts, taken)?;
    for code in 0..codes(tried.families()) {
        let is_free = tried.are_among(code, free.as_slice());
        if is_free && tried.by_code(alloc, code)?.are_all_apart() {
            if let Some((made, shown)) = made_apart(alloc, facts, scheme, code)? {
                let standing = Standing::Apart(shown);
                let term = whole(alloc, program, facts, scheme, made, standing, taken)?;
                if term.is_some() {
                    return Ok(term);
                }
            }
        }
    }
    Ok(None)
}

/// The joint term of families in groups, by the ways of a code, where there are several groups or one may do.
pub(crate) fn term_grouped(
    alloc: Global,
    program: &Program,
    facts: &Facts,
    scheme: &Scheme,
    code: u32,
    may_be_one: bool,
    taken: &[Vec<Words>],
) -> Result<Option<Proposed<StretchTerm>>, Memory> {
    if scheme.weight() > u32::from(JOINT_WEIGHTS) {
        return Ok(None);
    }
    let Some(made) = made_by(alloc, facts, scheme, code)? else {
        return Ok(None);
    };
    let words = made.words.as_slice();
    let apart = apart_by_words(alloc, facts, words)?;
    let groups = groups_of(alloc, &apart)?;
    if !may_be_one && !are_several(groups.as_slice()) {
        return Ok(None);
    }
    match groups_shown(alloc, facts, words, groups.as_slice())? {
        Some(shown) => {
            let standing = Standing::Grouped(groups, shown);
            whole(alloc, program, facts, scheme, made, standing, taken)
        }
        None => Ok(None),
    }
}

/// A term of a scheme with one part: its families apart where they can be shown so, by walks that go on or stop at once in credited
/// nests; else in groups that can be shown apart; else each counted by itself. No word of it is one of those that are taken.
pub(crate) fn single_term(
    alloc: Global,
    program: &Program,
    facts: &Facts,
    scheme: &Scheme,
    tried: &Tried,
    taken: &[Vec<Words>],
) -> Result<Option<Proposed<StretchTerm>>, Memory> {
    let found = term_apart(alloc, program, facts, scheme, tried, taken)?;
    if found.is_some() {
        return Ok(found);
    }
    let (_factor, code) = best_code(alloc, scheme, tried)?;
    let found = term_grouped(alloc, program, facts, scheme, code, false, taken)?;
    if found.is_some() {
        return Ok(found);
    }
    match made_by(alloc, facts, scheme, 0)? {
        Some(made) => whole(alloc, program, facts, scheme, made, Standing::Each, taken),
        None => Ok(None),
    }
}
