//! Points that are counted, and their images.

use crate::coordinates::Coordinates;
use affine_facts::affine::{Affine, copies};
use affine_facts::facts::{Facts, with_row};
use affine_facts::nests::{copied_bounds, nest_rows};
use affine_facts::shown::{Rows, no_point};
use affine_facts::words::{Words, shared};
use affine_form::Memory;
use iolb_model::limits;
use joint_partition::Split;
use std::alloc::Global;

/// Instances of a statement in bounds, and their image: forms over the parameters and the loop values.
#[derive(Drop)]
pub(crate) struct Points {
    pub(crate) statement: u16,
    pub(crate) bounds: Vec<(Affine, Affine)>,
    pub(crate) image: Vec<Affine>,
}

impl Points {
    /// The label of a start: the coordinates of a set.
    pub(crate) fn label(&self, alloc: Global, set: &[u8]) -> Result<Vec<Affine>, Memory> {
        let mut label = Vec::new(alloc);
        for row in set {
            if let Some(form) = self.image.as_slice().get(usize::from(*row)) {
                label.push(form.copied(alloc)?)?;
            }
        }
        Ok(label)
    }

    /// A copy.
    pub(crate) fn copied(&self, alloc: Global) -> Result<Points, Memory> {
        Ok(Points {
            statement: self.statement,
            bounds: copied_bounds(alloc, self.bounds.as_slice())?,
            image: copies(alloc, self.image.as_slice())?,
        })
    }
}

/// Copies of points.
pub(crate) fn all_points(alloc: Global, parts: &[Points]) -> Result<Vec<Points>, Memory> {
    let mut all = Vec::new(alloc);
    for points in parts {
        all.push(points.copied(alloc)?)?;
    }
    Ok(all)
}

/// All instances of a statement, over coordinates of its loops.
pub(crate) fn points_over(
    alloc: Global,
    facts: &Facts,
    statement: u16,
    kind: Coordinates,
) -> Result<Option<Points>, Memory> {
    let Some(own) = facts.statement(statement) else {
        return Ok(None);
    };
    Ok(Some(Points {
        statement,
        bounds: copied_bounds(alloc, own.nest.as_slice())?,
        image: kind.forms(alloc, facts.params, own.depth())?,
    }))
}

/// The images of points, as if they were words.
fn images(alloc: Global, facts: &Facts, points: &Points) -> Result<Words, Memory> {
    Ok(Words {
        of_cells: false,
        target: 0,
        given: nest_rows(alloc, facts, points.bounds.as_slice())?,
        point: copies(alloc, points.image.as_slice())?,
    })
}

/// What shows that no whole numbers meet rows, by a test of a row.
fn split_by(alloc: Global, given: &Rows, test: Affine) -> Result<Option<Split>, Memory> {
    let Some(form) = test.form(alloc, given.vars.min(limits::VARIABLES))? else {
        return Ok(None);
    };
    let opposite = test.negated(alloc)?;
    let vars = given.vars;
    let rows = with_row(alloc, given.rows.as_slice(), test)?;
    let Some(yes) = no_point(alloc, &Rows { vars, rows })? else {
        return Ok(None);
    };
    let rows = with_row(alloc, given.rows.as_slice(), opposite)?;
    let Some(no) = no_point(alloc, &Rows { vars, rows })? else {
        return Ok(None);
    };
    Ok(Some(Split::Test {
        form,
        yes: Box::new(alloc, Split::Empty { shown: yes })?,
        no: Box::new(alloc, Split::Empty { shown: no })?,
    }))
}

/// What shows that the images of points differ from those of others, by a test of which of two loops is ahead if need be.
pub(crate) fn images_apart(
    alloc: Global,
    facts: &Facts,
    first: &Points,
    second: &Points,
) -> Result<Option<Split>, Memory> {
    let given = shared(
        alloc,
        facts,
        &images(alloc, facts, first)?,
        &images(alloc, facts, second)?,
    )?;
    if let Some(shown) = no_point(alloc, &given)? {
        return Ok(Some(Split::Empty { shown }));
    }
    let depth = first.bounds.len();
    for place in 0..depth.min(second.bounds.len()) {
        let variable = facts.params.saturating_add(place);
        let mut test = Affine::variable(alloc, variable)?;
        test.add_variable(variable.saturating_add(depth), -1)?;
        test.add_number(-1);
        let found = split_by(alloc, &given, test)?;
        if found.is_some() {
            return Ok(found);
        }
    }
    Ok(None)
}

/// Whether the images of points are shown to differ from those of each of others.
pub(crate) fn apart_from(
    alloc: Global,
    facts: &Facts,
    parts: &[Points],
    points: &Points,
) -> Result<bool, Memory> {
    for other in parts {
        if images_apart(alloc, facts, other, points)?.is_none() {
            return Ok(false);
        }
    }
    Ok(true)
}

/// What shows of each two parts that their images differ, the first part's pairs first.
pub(crate) fn all_images_apart(
    alloc: Global,
    facts: &Facts,
    parts: &[Points],
) -> Result<Option<Vec<Split>>, Memory> {
    let mut all = Vec::new(alloc);
    for place in 0..parts.len().saturating_mul(parts.len()) {
        let first = place.checked_div(parts.len()).unwrap_or(0);
        let second = place.checked_rem(parts.len()).unwrap_or(0);
        if let (true, Some(one), Some(other)) = (
            first < second,
            parts.get(first),
            parts.get(second),
        ) {
            match images_apart(alloc, facts, one, other)? {
                Some(split) => all.push(split)?,
                None => return Ok(None),
            }
        }
    }
    Ok(Some(all))
}
