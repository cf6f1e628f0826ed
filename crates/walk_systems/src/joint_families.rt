//! Systems and pieces of families of joint terms.

ghost use Rattle.std.specs.Prelude.{IfSome};
ghost use Rattle.affine_form.specs.Form.{IsSmall};
ghost use Rattle.iolb_model.specs.declared.limits.TheConstants.{COEFFICIENT_SIZE};

use crate::families::start_system;
use crate::pieces::{Piece, PieceList, push_walk};
use crate::walks::{region_system, write_walk};
use affine_form::{Form, Memory};
use affine_program::Program;
use asked_systems::{behind, index_at, key_at};
use claims::Step;
use dep_quast::Quasts;
use domain_count::Nest;
use iolb_model::limits;
use joint_partition::{Joint, JointFamily, Labeling, Part, Start, Way};
use plain_pages::Page;
use reuse_paths::{Aim, Credit, Kept, Nodes, Region, Walking, label_in};
use std::alloc::Global;

/// The labeling that a way names, where it is there.
pub(crate) fn labeling_of<'a>(family: &'a JointFamily, way: &Way) -> Option<&'a Labeling> {
    family.labels.get(usize::from(way.labels))
}

/// The way that a start enters, with its labeling, where both are there.
pub(crate) fn entered<'a>(
    family: &'a JointFamily,
    start: &Start,
) -> Option<(&'a Way, &'a Labeling)> {
    let way = family.ways.get(usize::from(start.way))?;
    Some((way, labeling_of(family, way)?))
}

/// The region of a way for the statement of this number, where there is one.
pub(crate) fn region_of(way: &Way, number: usize) -> Option<(u16, &Region)> {
    match (way.regions.get(number), u16::try_from(number)) {
        (Some(Some(region)), Ok(statement)) => Some((statement, region)),
        _ => None,
    }
}

/// The walks in a way with its labeling, from readers with this label, which no nest is around.
pub(crate) fn walking_in<'a>(
    program: &'a Program,
    quasts: &'a Quasts,
    none: &'a Nest,
    credits: &'a [Credit],
    way: &'a Way,
    labeling: &'a Labeling,
    reader: &'a [Form],
    condition: u8,
) -> Walking<'a> {
    Walking {
        program,
        quasts,
        nest: none,
        aim: Aim::Keep(Kept {
            nodes: Nodes::Apart {
                labels: labeling.nodes.as_slice(),
                regions: way.regions.as_slice(),
            },
            inputs: labeling.inputs.as_slice(),
            credits,
            reader,
        }),
        condition,
    }
}

/// A number times a scale, where this is within the limits of forms.
fn times(scale: u32, number: i128) -> Option<i128>
    ensures { IfSome result (IsSmall COEFFICIENT_SIZE) }
{
    let product = number.saturating_mul(i128::from(scale));
    if product.unsigned_abs() < limits::COEFFICIENT_SIZE {
        Some(product)
    } else {
        None
    }
}

/// A form times a scale, where this is within the limits of forms.
fn scaled(alloc: Global, scale: u32, form: &Form) -> Result<Option<Form>, Memory> {
    let numbers = form.coef();
    let mut coef = Vec::new(alloc);
    for number in numbers {
        let Some(product) = times(scale, *number) else {
            return Ok(None);
        };
        coef.push(product)?;
    }
    match times(scale, form.constant()) {
        Some(constant) => Ok(Some(Form::new(coef, constant))),
        None => Ok(None),
    }
}

/// The start label of a family's walks from a part, the scale times the forms of the part's map in the set, where this is
/// within the limits of forms.
fn start_label(
    alloc: Global,
    part: &Part,
    family: &JointFamily,
) -> Result<Option<Vec<Form>>, Memory> {
    let mut label = Vec::new(alloc);
    for coordinate in family.set.coords() {
        let Some(form) = part.image.get(usize::from(*coordinate)) else {
            return Ok(None);
        };
        let Some(form) = scaled(alloc, family.scale, form)? else {
            return Ok(None);
        };
        label.push(form)?;
    }
    Ok(Some(label))
}

/// Writes what is asked at a place of a family's walks from a part, behind `starts`.
fn write_start(
    page: &mut Page,
    program: &Program,
    quasts: &Quasts,
    term: &Joint,
    family: &JointFamily,
    condition: u8,
    steps: &[Step],
) -> Result<(), Memory> {
    let alloc = page.alloc();
    let Some(number) = index_at(steps, 0) else {
        return Ok(());
    };
    let (Some(part), Some(start)) = (term.parts.get(number), family.starts.get(number)) else {
        return Ok(());
    };
    let Some((way, labeling)) = entered(family, start) else {
        return Ok(());
    };
    let none = Nest::new(Vec::new(alloc));
    let Some(label) = start_label(alloc, part, family)? else {
        return Ok(());
    };
    let (credits, reader) = (term.credits.as_slice(), label.as_slice());
    let walking = walking_in(
        program, quasts, &none, credits, way, labeling, reader, condition,
    );
    let system = start_system(alloc, &walking, part.statement, &part.nest)?;
    let rest = behind(steps, 2);
    write_walk(page, &walking, part.statement, &system, &start.tree, rest)
}

/// Writes what is asked at a place of a family's ways, behind `ways`.
fn write_way(
    page: &mut Page,
    program: &Program,
    quasts: &Quasts,
    term: &Joint,
    family: &JointFamily,
    condition: u8,
    steps: &[Step],
) -> Result<(), Memory> {
    let (Some(number), Some(place)) = (index_at(steps, 0), index_at(steps, 2)) else {
        return Ok(());
    };
    let Some(way) = family.ways.get(number) else {
        return Ok(());
    };
    let (Some(labeling), Some((statement, region))) = (
        labeling_of(family, way),
        region_of(way, place),
    ) else {
        return Ok(());
    };
    let none = Nest::new(Vec::new(page.alloc()));
    let reader = label_in(labeling.nodes.as_slice(), statement).unwrap_or(&[]);
    let credits = term.credits.as_slice();
    let walking = walking_in(
        program, quasts, &none, credits, way, labeling, reader, condition,
    );
    let system = region_system(page.alloc(), &walking, statement, region.rows.as_slice())?;
    let rest = behind(steps, 4);
    write_walk(page, &walking, statement, &system, &region.tree, rest)
}

/// Writes what is asked for a condition at a place of a family of a joint term: of a start tree, or of the walks of a way's regions.
pub fn write_joint_family(
    page: &mut Page,
    program: &Program,
    quasts: &Quasts,
    term: &Joint,
    family: &JointFamily,
    condition: u8,
    steps: &[Step],
) -> Result<(), Memory> {
    let rest = behind(steps, 1);
    match key_at(steps, 0) {
        Some("starts") => write_start(page, program, quasts, term, family, condition, rest),
        Some("ways") => write_way(page, program, quasts, term, family, condition, rest),
        _ => Ok(()),
    }
}

/// Puts the pieces of a family's walks from a part behind others.
fn push_start(
    alloc: Global,
    pieces: &mut Vec<Piece>,
    program: &Program,
    quasts: &Quasts,
    family: &JointFamily,
    part: &Part,
    start: &Start,
) -> Result<(), Memory> {
    let Some((way, labeling)) = entered(family, start) else {
        return Ok(());
    };
    let none = Nest::new(Vec::new(alloc));
    let walking = walking_in(program, quasts, &none, &[], way, labeling, &[], 0);
    let system = start_system(alloc, &walking, part.statement, &part.nest)?;
    push_walk(
        alloc,
        pieces,
        &walking,
        part.statement,
        &system,
        &start.tree,
    )
}

/// Puts the pieces of a way's regions behind others, statement by statement.
fn push_way(
    alloc: Global,
    pieces: &mut Vec<Piece>,
    program: &Program,
    quasts: &Quasts,
    family: &JointFamily,
    way: &Way,
) -> Result<(), Memory> {
    let Some(labeling) = labeling_of(family, way) else {
        return Ok(());
    };
    let none = Nest::new(Vec::new(alloc));
    let walking = walking_in(program, quasts, &none, &[], way, labeling, &[], 0);
    for number in 0..way.regions.len() {
        if let Some((statement, region)) = region_of(way, number) {
            let system = region_system(alloc, &walking, statement, region.rows.as_slice())?;
            push_walk(alloc, pieces, &walking, statement, &system, &region.tree)?;
        }
    }
    Ok(())
}

/// Puts the pieces of ways behind others, way by way.
fn push_ways(
    alloc: Global,
    pieces: &mut Vec<Piece>,
    program: &Program,
    quasts: &Quasts,
    family: &JointFamily,
) -> Result<(), Memory> {
    for way in family.ways.as_slice() {
        push_way(alloc, pieces, program, quasts, family, way)?;
    }
    Ok(())
}

/// The pieces of a family: those of its start trees by part, and then those of its ways.
fn family_pieces(
    alloc: Global,
    program: &Program,
    quasts: &Quasts,
    term: &Joint,
    family: &JointFamily,
) -> Result<Vec<Piece>, Memory> {
    let mut pieces = Vec::new(alloc);
    for (part, start) in term.parts.as_slice().iter().zip(family.starts.as_slice()) {
        push_start(alloc, &mut pieces, program, quasts, family, part, start)?;
    }
    push_ways(alloc, &mut pieces, program, quasts, family)?;
    Ok(pieces)
}

/// The pieces of a joint term's families, family by family, each of its family's group.
pub fn joint_pieces(
    alloc: Global,
    program: &Program,
    quasts: &Quasts,
    term: &Joint,
) -> Result<Vec<PieceList>, Memory> {
    let mut lists = Vec::new(alloc);
    for family in term.families.as_slice() {
        let group = usize::from(family.group);
        let pieces = family_pieces(alloc, program, quasts, term, family)?;
        lists.push(PieceList { group, pieces })?;
    }
    Ok(lists)
}
