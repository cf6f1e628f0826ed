//! The nest of the loops that a read's subscripts name, and the loop values of the reading instance.

ghost use Rattle.std.specs.Prelude.{◌≡◌, ◌<◌, ◌+◌, length, IfOk};
ghost use Rattle.affine_form.specs.Form.{variables};
ghost use Rattle.affine_form.specs.Rows.{direction_of, IsSmallOver};
ghost use Rattle.affine_program.specs.Domain.{depth_of};
ghost use Rattle.affine_program.specs.Parts.{meaning};
ghost use Rattle.dep_quast.specs.Truth.{ReadFits};
ghost use Rattle.dep_quast.specs.Views.{read_of};
ghost use Rattle.find_terms.specs.Found.{FarFits, FindsNest, so_far};
ghost use Rattle.find_terms.specs.Openings.{at_values, into_loop, named_nest, width, with_first, with_variable};
ghost use Rattle.iolb_model.specs.declared.limits.TheConstants.{LOOPS};

use affine_form::{Form, Memory, put, variable, variables_from, widened};
use affine_program::{Program, is_small_form};
use claims::lists::{all_widened, followed_by};
use dep_quast::reader::{Reader, depth};
use flow_deps::points::{bounds_at, runs_down};
use std::alloc::Global;

/// A nest, and the values of the loops on a way, as far as the way is gone.
#[derive(Debug, Drop)]
pub(crate) struct SoFar {
    pub nest: Vec<(Form, Form)>,
    pub values: Vec<Form>,
}

/// A bound of the next loop at the values so far.
fn at_values(alloc: Global, program: &Program, far: &SoFar, bound: &Form) -> Result<Form, Memory>
    requires few { length far.now.values.items < LOOPS }
    requires far { FarFits (meaning program.now) (length far.now.values.items) (so_far far.now) }
    requires bound { IsSmallOver (length program.now.params + length far.now.values.items) bound.now }
    ensures value { IfOk result (λ value. value ≡ at_values (meaning program.now) (so_far far.now) bound.now) }
    ensures over { IfOk result (λ value. variables value ≡ width (meaning program.now) (so_far far.now)) }
{
    let params = program.params().len();
    let vars = params + far.nest.len();
    let known = variables_from(alloc, vars, 0, params)?;
    let point = followed_by(alloc, known, far.values.as_slice())?;
    let at = put(alloc, vars, bound, point.as_slice())?;
    widened(alloc, vars, &at)
}

/// Into a loop that is named: a variable more between its bounds. None only where these aren't small.
fn with_variable(
    alloc: Global,
    program: &Program,
    far: SoFar,
    bounds: &(Form, Form),
) -> Result<Option<SoFar>, Memory>
    requires few { length far.values.items < LOOPS }
    requires far { FarFits (meaning program.now) (length far.values.items) (so_far far) }
    requires lower { IsSmallOver (length program.now.params + length far.values.items) bounds.now.0 }
    requires upper { IsSmallOver (length program.now.params + length far.values.items) bounds.now.1 }
    ensures { IfOk result (λ found. FindsNest (meaning program.now) (length far.values.items + 1) (with_variable (meaning program.now) (so_far far) bounds.now.0 bounds.now.1) found) }
{
    let lower = at_values(alloc, program, &far, &bounds.0)?;
    let upper = at_values(alloc, program, &far, &bounds.1)?;
    if !is_small_form(&lower) || !is_small_form(&upper) {
        return Ok(None);
    }
    let vars = program.params().len() + far.nest.len();
    let mut values = all_widened(alloc, vars + 1, far.values.as_slice())?;
    values.push(variable(alloc, vars + 1, vars)?)?;
    let mut nest = far.nest;
    nest.push((lower, upper))?;
    Ok(Some(SoFar { nest, values }))
}

/// Into another loop, in its first turn: its first bound. None only where that isn't small.
fn with_first(
    alloc: Global,
    program: &Program,
    far: SoFar,
    first: &Form,
) -> Result<Option<SoFar>, Memory>
    requires few { length far.values.items < LOOPS }
    requires far { FarFits (meaning program.now) (length far.values.items) (so_far far) }
    requires first { IsSmallOver (length program.now.params + length far.values.items) first.now }
    ensures { IfOk result (λ found. FindsNest (meaning program.now) (length far.values.items + 1) (with_first (meaning program.now) (so_far far) first.now) found) }
{
    let value = at_values(alloc, program, &far, first)?;
    if !is_small_form(&value) {
        return Ok(None);
    }
    let mut values = far.values;
    values.push(value)?;
    let nest = far.nest;
    Ok(Some(SoFar { nest, values }))
}

/// Into a loop that runs downward or not.
fn into_loop(
    alloc: Global,
    program: &Program,
    named: bool,
    down: bool,
    far: SoFar,
    bounds: &(Form, Form),
) -> Result<Option<SoFar>, Memory>
    requires few { length far.values.items < LOOPS }
    requires far { FarFits (meaning program.now) (length far.values.items) (so_far far) }
    requires lower { IsSmallOver (length program.now.params + length far.values.items) bounds.now.0 }
    requires upper { IsSmallOver (length program.now.params + length far.values.items) bounds.now.1 }
    ensures { IfOk result (λ found. FindsNest (meaning program.now) (length far.values.items + 1) (into_loop (meaning program.now) named (direction_of down) (so_far far) bounds.now) found) }
{
    if named {
        with_variable(alloc, program, far, bounds)
    } else if down {
        with_first(alloc, program, far, &bounds.1)
    } else {
        with_first(alloc, program, far, &bounds.0)
    }
}

/// The nest of the loops that are named, outermost first, and the loop values: a loop that is named has its variable, each
/// other its first value, at the values before it. None only where some number isn't small.
pub(crate) fn named_nest(
    alloc: Global,
    program: &Program,
    reader: Reader,
    loops: &[u8],
) -> Result<Option<SoFar>, Memory>
    requires { ReadFits (meaning program.now) (read_of reader) }
    ensures { IfOk result (λ found. FindsNest (meaning program.now) (depth_of (meaning program.now) reader.statement) (named_nest (meaning program.now) (read_of reader) loops.now) found) }
{
    let mut far = SoFar {
        nest: Vec::new(alloc),
        values: Vec::new(alloc),
    };
    for level in 0..depth(program, reader.statement) {
        let named = loops.contains(&(level as u8));
        let down = runs_down(program, reader.statement, level);
        let bounds = bounds_at(program, reader.statement, level);
        let Some(next) = into_loop(alloc, program, named, down, far, bounds)? else {
            return Ok(None);
        };
        far = next;
    }
    Ok(Some(far))
}
