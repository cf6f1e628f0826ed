//! Whether a partition term's points are instances.
#![tactic(auto, using(claims::proofs::Found::in_a_row))]

ghost use Rattle.std.specs.Prelude.{◌≡◌, ◌*◌, ◌≤◌, length, IfOk};
ghost use Rattle.affine_program.specs.Domain.{domain_rows, domain_size};
ghost use Rattle.affine_program.specs.Parts.{meaning};
ghost use Rattle.claims.specs.Claims.{Decides};
ghost use Rattle.k_partition.specs.PartitionClaims.{inside_claims, inside_goals};
ghost use Rattle.k_partition.specs.View.{partition_of};
ghost use Rattle.reuse_paths.specs.FamilyFits.{CountedFits};
ghost use Rattle.iolb_model.specs.declared.limits.TheConstants.{NEST_VARIABLES};

use crate::term::Partition;
use affine_form::{Form, Memory, variables_from};
use affine_program::Program;
use claims::shown::goals_shown;
use claims::{ObjectKey, Place, Refused, Step};
use dep_quast::point_rows::domain_rows;
use domain_count::rows_before;
use std::alloc::Global;

/// The rows which say that the points of the nest are in the statement's domain.
fn goals_of(alloc: Global, program: &Program, term: &Partition) -> Result<Vec<Form>, Memory>
    requires counted { CountedFits (meaning program.now) term.now.statement term.now.nest term.now.matrix }
    requires few { length term.now.nest ≤ NEST_VARIABLES }
    ensures goals { IfOk result (λ goals. goals.items ≡ inside_goals (meaning program.now) (partition_of term.now)) }
    ensures many { IfOk result (λ goals. length goals.items ≡ domain_size (meaning program.now) term.now.statement) }
{
    let params = program.params().len();
    let size = term.nest.bounds().len();
    let vars = params + size;
    let values = variables_from(alloc, vars, params, size)?;
    domain_rows(alloc, program, vars, term.statement, values.as_slice())
}

/// Whether the points of the nest are shown to be in the statement's domain.
pub(crate) fn inside_shown(
    alloc: Global,
    program: &Program,
    term: &Partition,
    place: &Place,
) -> Result<(), Refused>
    requires counted { CountedFits (meaning program.now) term.now.statement term.now.nest term.now.matrix }
    requires few { length term.now.nest ≤ NEST_VARIABLES }
    requires each { length term.now.inside.items ≡ domain_size (meaning program.now) term.now.statement }
    ensures { Decides (inside_claims (meaning program.now) place.now (partition_of term.now)) result }
{
    let goals = goals_of(alloc, program, term)?;
    let system = rows_before(alloc, program, term.nest.bounds())?;
    let list = place.within(alloc, Step::Key(ObjectKey("inside")))?;
    goals_shown(
        alloc,
        10,
        &list,
        &system,
        goals.as_slice(),
        term.inside.as_slice(),
    )
}
