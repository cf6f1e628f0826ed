//! Systems of nests.

ghost use Rattle.std.specs.Prelude.{◌≤◌, length};
ghost use Rattle.affine_form.specs.Rows.{BoundsFit};
ghost use Rattle.iolb_model.specs.declared.limits.TheConstants.{NEST_VARIABLES};

use crate::fits::{are_over, bounds_fit, is_over};
use crate::names::nest_names;
use crate::sums::Sum;
use crate::systems::{Says, Section, System};
use affine_form::{Form, Memory, Multipliers, difference};
use affine_program::Program;
use dep_quast::point_rows::domain_rows;
use dep_quast::reader::depth;
use domain_count::rows_before;
use iolb_model::limits;
use plain_pages::Page;

/// A nest of a program, by the bounds of its variables, over which multipliers are to show something.
#[derive(Clone, Copy)]
pub struct NestAsked<'a> {
    pub program: &'a Program,
    pub bounds: &'a [(Form, Form)],
}

/// Writes the system of the rows of a nest's variables with this goal.
fn write_over(
    page: &mut Page,
    program: &Program,
    bounds: &[(Form, Form)],
    goal: &Form,
    shown: &Multipliers,
) -> Result<(), Memory>
    requires few { length bounds.now ≤ NEST_VARIABLES }
    requires fit { BoundsFit (length program.now.params) bounds.now }
{
    let alloc = page.alloc();
    let names = nest_names(alloc, program, bounds.len())?;
    let before = rows_before(alloc, program, bounds)?;
    let sections = [
        Section {
            count: program.assumed().rows().len(),
            says: Says::Assumed,
        },
        Section {
            count: before.rows().len(),
            says: Says::Nest,
        },
    ];
    let sum = Sum::of(alloc, names.len(), goal)?;
    let system = System::of(alloc, names, before.rows(), &sections)?;
    system.write(page, &sum, shown)
}

/// Writes the system of the multipliers that show the range of a nest's variable of this number to be whole.
pub fn write_range(
    page: &mut Page,
    nest: NestAsked<'_>,
    number: usize,
    shown: &Multipliers,
) -> Result<(), Memory> {
    let NestAsked { program, bounds } = nest;
    let params = program.params().len();
    if bounds.len() > limits::NEST_VARIABLES || number >= bounds.len() {
        return Ok(());
    }
    let (before, rest) = bounds.split_at(number);
    let vars = params + before.len();
    let Some((lower, upper)) = rest.first() else {
        return Ok(());
    };
    if !bounds_fit(params, before) || !is_over(vars, lower) || !is_over(vars, upper) {
        return Ok(());
    }
    let goal = difference(page.alloc(), vars, upper, lower, 1)?;
    write_over(page, program, before, &goal, shown)
}

/// Writes the system of the multipliers of this number which show that the instances of a statement with these loop values, forms over
/// the nest's variables, are in its domain.
pub fn write_inside(
    page: &mut Page,
    nest: NestAsked<'_>,
    statement: u16,
    point: &[Form],
    number: usize,
    shown: &Multipliers,
) -> Result<(), Memory> {
    let NestAsked { program, bounds } = nest;
    let params = program.params().len();
    if bounds.len() > limits::NEST_VARIABLES || !bounds_fit(params, bounds) {
        return Ok(());
    }
    let vars = params + bounds.len();
    if usize::from(statement) >= program.statements().len()
        || point.len() != depth(program, statement)
        || !are_over(vars, point)
    {
        return Ok(());
    }
    let goals = domain_rows(page.alloc(), program, vars, statement, point)?;
    match goals.as_slice().get(number) {
        Some(goal) => write_over(page, program, bounds, goal, shown),
        None => Ok(()),
    }
}
