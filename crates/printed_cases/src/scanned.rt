//! Source trees beside a plain scan of the execution.

use affine_form::Form;
use affine_program::Program;
use dep_quast::Quast;
use plain_graph::runs::{Instance, runs_of_row, value_at};
use plain_graph::sources::{Source, sources_at};
use plain_graph::stopped::Stopped;
use std::alloc::Global;

/// Whether at each instance of a statement, at these parameter values, the leaf that the tests of the tree choose names the
/// source which the scan finds for the statement's first read.
pub(crate) fn agrees(
    alloc: Global,
    program: &Program,
    statement: u16,
    quast: &Quast,
    params: &[i128],
) -> Result<bool, Stopped> {
    let runs = runs_of_row(alloc, program.tree(), params)?;
    let runs = runs.as_slice();
    for place in 0..runs.len() {
        let sources = sources_at(alloc, program.statements(), params, runs, place)?;
        let mut point = Vec::from_slice(alloc, params)?;
        for value in runs[place].values.as_slice() {
            point.push(*value)?;
        }
        let mine = runs[place].statement == statement;
        if mine && !names(quast, point.as_slice(), sources.as_slice(), runs)? {
            return Ok(false);
        }
    }
    Ok(true)
}

/// Whether the leaf that the tests choose at a point names the first of these sources.
fn names(
    quast: &Quast,
    point: &[i128],
    sources: &[Source],
    runs: &[Instance],
) -> Result<bool, Stopped> {
    let Some(found) = sources.first() else {
        return Ok(false);
    };
    match quast {
        Quast::Test { form, yes, no } => {
            if value_at(form, point)? >= 0 {
                names(yes, point, sources, runs)
            } else {
                names(no, point, sources, runs)
            }
        }
        Quast::Source {
            statement,
            point: forms,
            ..
        } => match found {
            Source::Written(place) => {
                is_instance(runs, *place, *statement, forms.as_slice(), point)
            }
            Source::Input(_) => Ok(false),
        },
        Quast::Input { .. } => match found {
            Source::Written(_) => Ok(false),
            Source::Input(_) => Ok(true),
        },
        Quast::Empty { .. } => Ok(false),
        Quast::Blank => Ok(true),
    }
}

/// Whether the instance at a place is of a statement, at the values of these forms at a point.
fn is_instance(
    runs: &[Instance],
    place: usize,
    statement: u16,
    forms: &[Form],
    point: &[i128],
) -> Result<bool, Stopped> {
    let Some(run) = runs.get(place) else {
        return Ok(false);
    };
    if run.statement != statement {
        return Ok(false);
    }
    have_values(forms, point, run.values.as_slice())
}

/// Whether forms have these values at a point.
fn have_values(forms: &[Form], point: &[i128], values: &[i128]) -> Result<bool, Stopped> {
    if values.len() != forms.len() {
        return Ok(false);
    }
    for (i, form) in forms.iter().enumerate() {
        if value_at(form, point)? != values[i] {
            return Ok(false);
        }
    }
    Ok(true)
}
