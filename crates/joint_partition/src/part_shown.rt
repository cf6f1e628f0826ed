//! Whether a part's points are instances, and its map has the scaled inverse that stands beside it.
#![tactic(auto, using(claims::proofs::Found::in_a_row))]

ghost use Rattle.std.specs.Prelude.{◌≡◌, ◌++◌, ◌∷◌, [], length, IfOk, codes};
ghost use Rattle.affine_program.specs.Domain.{domain_size};
ghost use Rattle.affine_program.specs.Parts.{meaning};
ghost use Rattle.claims.specs.Claims.{Decides};
ghost use Rattle.claims.specs.declared.place.Step.TheVariants.{Index, Key};
ghost use Rattle.joint_partition.specs.Claims.{inside_claims, inside_goals, unit_claims};
ghost use Rattle.joint_partition.specs.View.{part_of, FitsPart};

use crate::term::Part;
use affine_form::{Form, Memory, variables_from};
use affine_program::Program;
use claims::shown::goals_shown;
use claims::{ObjectKey, Place, Refused, Step, refusal};
use dep_quast::point_rows::domain_rows;
use domain_count::rows_before;
use std::alloc::Global;
use wavefront::first_difference;

/// The rows which say that the points of a part are in its statement's domain.
fn goals_of(alloc: Global, program: &Program, part: &Part) -> Result<Vec<Form>, Memory>
    requires { FitsPart program.now (length part.now.image.items) part.now }
    ensures goals { IfOk result (λ goals. goals.items ≡ inside_goals (meaning program.now) (part_of part.now)) }
    ensures many { IfOk result (λ goals. length goals.items ≡ domain_size (meaning program.now) part.now.statement) }
{
    let params = program.params().len();
    let size = part.nest.bounds().len();
    let vars = params + size;
    let values = variables_from(alloc, vars, params, size)?;
    domain_rows(alloc, program, vars, part.statement, values.as_slice())
}

/// Whether the points of a part are shown to be in its statement's domain.
pub(crate) fn inside_shown(
    alloc: Global,
    program: &Program,
    part: &Part,
    place: &Place,
) -> Result<(), Refused>
    requires { FitsPart program.now (length part.now.image.items) part.now }
    ensures { Decides (inside_claims (meaning program.now) place.now (part_of part.now)) result }
{
    let goals = goals_of(alloc, program, part)?;
    let system = rows_before(alloc, program, part.nest.bounds())?;
    let list = place.within(alloc, Step::Key(ObjectKey("inside")))?;
    goals_shown(
        alloc,
        10,
        &list,
        &system,
        goals.as_slice(),
        part.inside.as_slice(),
    )
}

/// Whether the matrix of a part turns the forms of its map back into the scale times the loop values.
pub(crate) fn inverse_shown(
    alloc: Global,
    program: &Program,
    part: &Part,
    place: &Place,
) -> Result<(), Refused>
    requires { FitsPart program.now (length part.now.image.items) part.now }
    ensures { Decides (unit_claims (meaning program.now) place.now (part_of part.now)) result }
{
    let params = program.params().len();
    let size = part.nest.bounds().len();
    let (matrix, scale) = (&part.inverse.matrix, part.inverse.scale);
    match first_difference(matrix, part.image.as_slice(), params, scale, size) {
        Some((row, col)) => {
            let entry = entry_at(alloc, place, row, col)?;
            Err(refusal(alloc, 12, &entry))
        }
        None => Ok(()),
    }
}

/// The place of an entry of the product of the matrix with the map's coefficients.
fn entry_at(alloc: Global, place: &Place, row: usize, col: usize) -> Result<Place, Memory>
    ensures { IfOk result (λ entry. entry ≡ place.now ++ Key (codes "inverse") ∷ Key (codes "matrix") ∷ Index row ∷ Index col ∷ []) }
{
    let inverse = place.within(alloc, Step::Key(ObjectKey("inverse")))?;
    let matrix = inverse.within(alloc, Step::Key(ObjectKey("matrix")))?;
    let row = matrix.within(alloc, Step::Index(row as u64))?;
    row.within(alloc, Step::Index(col as u64))
}
