//! Systems in which points of two parts of a joint term have one image.

use crate::frames::{parameters, push_nest};
use crate::points::{bound_rows, equal_rows, followed, put_all, variables};
use crate::walks::{with_test, write_pointless};
use affine_form::Memory;
use affine_program::Program;
use asked_systems::{Says, Sum, System, behind, key_at, nest_names, put_loop_names};
use claims::Step;
use joint_partition::{Joint, Part, Split};
use plain_pages::Page;
use std::alloc::Global;

/// The two parts of this number, the first before the second, in the order of the pairs.
pub(crate) fn parts_at(parts: &[Part], number: usize) -> Option<(&Part, &Part)> {
    let (first, later) = parts.split_first()?;
    match number.checked_sub(later.len()) {
        None => Some((first, later.get(number)?)),
        Some(rest) => parts_at(later, rest),
    }
}

/// The image of a part's point with these loop values, behind the parameters.
fn image_of(
    alloc: Global,
    program: &Program,
    vars: usize,
    part: &Part,
    values: &[Sum],
) -> Result<Vec<Sum>, Memory> {
    let point = followed(alloc, parameters(alloc, program, vars)?, values)?;
    put_all(alloc, vars, part.image.as_slice(), point.as_slice())
}

/// The system of points of two parts with one image: the assumptions, the rows of both nests, and the equalities of the maps.
fn two_parts(
    alloc: Global,
    program: &Program,
    first: &Part,
    second: &Part,
) -> Result<System, Memory> {
    let mut names = nest_names(alloc, program, 0)?;
    put_loop_names(alloc, &mut names, program, first.statement, "")?;
    let behind_first = names.len();
    put_loop_names(alloc, &mut names, program, second.statement, "'")?;
    let mut system = System::new(alloc, names);
    let vars = system.vars();
    push_nest(alloc, &mut system, program, first.nest.bounds())?;
    let params = parameters(alloc, program, vars)?;
    let own = behind_first.saturating_sub(params.len());
    let one = variables(alloc, vars, params.len(), own)?;
    let other = variables(alloc, vars, behind_first, vars.saturating_sub(behind_first))?;
    let bounds = second.nest.bounds();
    let rows = bound_rows(alloc, vars, bounds, params.as_slice(), other.as_slice())?;
    system.push_all(alloc, rows.as_slice(), Says::Nest)?;
    let here = image_of(alloc, program, vars, first, one.as_slice())?;
    let there = image_of(alloc, program, vars, second, other.as_slice())?;
    let equal = equal_rows(alloc, here.as_slice(), there.as_slice())?;
    system.push_all(alloc, equal.as_slice(), Says::Image)?;
    Ok(system)
}

/// Writes what is asked at a place of a split, in the system with the tests on the way.
fn write_split(
    page: &mut Page,
    system: &System,
    split: &Split,
    steps: &[Step],
) -> Result<(), Memory> {
    match split {
        Split::Empty { shown } => write_pointless(page, system, shown),
        Split::Test { form, yes, no } => {
            let is_yes = key_at(steps, 0) == Some("yes");
            let inner = with_test(page.alloc(), system, form, is_yes, Says::Split)?;
            let side = if is_yes { yes } else { no };
            write_split(page, &inner, side, behind(steps, 1))
        }
    }
}

/// Writes the system at a place of the split of this number, which is to have no point: two points of different parts with one image.
pub fn write_distinct(
    page: &mut Page,
    program: &Program,
    term: &Joint,
    number: usize,
    steps: &[Step],
) -> Result<(), Memory> {
    let (Some((first, second)), Some(split)) = (
        parts_at(term.parts.as_slice(), number),
        term.distinct.get(number),
    ) else {
        return Ok(());
    };
    let system = two_parts(page.alloc(), program, first, second)?;
    write_split(page, &system, split, steps)
}
