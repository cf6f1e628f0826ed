//! Whether what an output claims of its instances is shown.
#![tactic(auto, using(claims::proofs::Found::in_a_row))]

ghost use Rattle.std.specs.Prelude.{◌≡◌, ◌≤◌, ◌+◌};
ghost use Rattle.affine_program.specs.Parts.{IsProgram, meaning};
ghost use Rattle.claims.specs.Claims.{Decides};
ghost use Rattle.iolb_model.specs.declared.limits.TheConstants.{NEST_VARIABLES, PARAMETERS};
ghost use Rattle.last_writers.specs.OutputClaims.{output_inside, output_inverse, output_variables};
ghost use Rattle.last_writers.specs.Fitting.{OutputFits};
ghost use Rattle.store_terms.specs.Claims.{claim_of_output};

use crate::inverse_shown::inverse_shown;
use affine_program::Program;
use claims::shown::goals_shown;
use claims::{ObjectKey, Place, Refused, Step};
use dep_quast::point_rows::domain_rows;
use domain_count::rows_before;
use std::alloc::Global;
use store_terms::Output;

/// How many variables there are: the parameters and the nest's.
pub(crate) fn variables(program: &Program, output: &Output) -> usize
    requires { OutputFits (meaning program.now) (claim_of_output output.now) }
    ensures variables { result ≡ output_variables (meaning program.now) (claim_of_output output.now) }
    ensures few { result ≤ PARAMETERS + NEST_VARIABLES }
    ensures kept { IsProgram program.now }
{
    program.params().len() + output.nest.bounds().len()
}

/// Whether the instances are shown to be in their statement's domain.
pub(crate) fn inside_shown(
    alloc: Global,
    program: &Program,
    output: &Output,
    place: &Place,
) -> Result<(), Refused>
    requires { OutputFits (meaning program.now) (claim_of_output output.now) }
    ensures { Decides (output_inside (meaning program.now) place.now (claim_of_output output.now)) result }
{
    let vars = variables(program, output);
    let point = output.point.as_slice();
    let goals = domain_rows(alloc, program, vars, output.statement, point)?;
    let system = rows_before(alloc, program, output.nest.bounds())?;
    let list = place.within(alloc, Step::Key(ObjectKey("inside")))?;
    let shown = output.inside.as_slice();
    goals_shown(alloc, 10, &list, &system, goals.as_slice(), shown)
}

/// Whether the matrix turns the instances' loop values back into the scale times the nest's variables.
pub(crate) fn instances_told(
    alloc: Global,
    program: &Program,
    output: &Output,
    place: &Place,
) -> Result<(), Refused>
    requires { OutputFits (meaning program.now) (claim_of_output output.now) }
    ensures { Decides (output_inverse (meaning program.now) place.now (claim_of_output output.now)) result }
{
    let params = program.params().len();
    let size = output.nest.bounds().len();
    let point = output.point.as_slice();
    inverse_shown(alloc, &output.inverse, point, params, size, place)
}
