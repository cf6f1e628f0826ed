//! Whether what a cold term claims is shown.
#![tactic(auto, using(claims::proofs::Found::in_a_row))]

ghost use Rattle.std.specs.Prelude.{◌≡◌, [], IfOk};
ghost use Rattle.std.specs.List.{AllByRecursion};
ghost use Rattle.affine_form.specs.System.{AllOver};
ghost use Rattle.affine_program.specs.Parts.{meaning};
ghost use Rattle.claims.specs.Claims.{Decides};
ghost use Rattle.dep_quast.specs.Tree.{tree_of};
ghost use Rattle.dep_quast.specs.OpenLeaves.{OpenLeaf as open_leaf, open_leaves};
ghost use Rattle.wavefront.specs.ColdClaims.{matrix_claims};
ghost use Rattle.wavefront.specs.Leaves.{inside_claims, term_leaves};
ghost use Rattle.wavefront.specs.Loads.{ColdFits, TermFits};
ghost use Rattle.wavefront.specs.Term.{instance_point, nest_variables};
ghost use Rattle.wavefront.specs.View.{term_of};

use crate::cold::Cold;
use crate::instance::{cell_of, instance_of, variables};
use crate::inverse_shown::inverse_shown;
use crate::leaves_shown::leaves_shown;
use affine_form::Memory;
use affine_program::Program;
use claims::shown::goals_shown;
use claims::{ObjectKey, Place, Refused, Step};
use dep_quast::Quast;
use dep_quast::open_leaves::{OpenLeaf, push_open_leaves};
use dep_quast::point_rows::domain_rows;
use domain_count::rows_before;
use std::alloc::Global;

/// Whether the instances are shown to be in their statement's domain.
pub(crate) fn inside_shown(
    alloc: Global,
    program: &Program,
    term: &Cold,
    place: &Place,
) -> Result<(), Refused>
    requires { TermFits (meaning program.now) (term_of term.now) }
    ensures { Decides (inside_claims (meaning program.now) place.now (term_of term.now)) result }
{
    let vars = variables(program, term);
    let system = rows_before(alloc, program, term.nest.bounds())?;
    let goals = domain_rows(alloc, program, vars, term.statement, term.point.as_slice())?;
    let list = place.within(alloc, Step::Key(ObjectKey("inside")))?;
    goals_shown(
        alloc,
        10,
        &list,
        &system,
        goals.as_slice(),
        term.inside.as_slice(),
    )
}

/// Whether the leaves of the read's source tree are shown to be inputs, or to have no point.
pub(crate) fn tree_shown(
    alloc: Global,
    program: &Program,
    quast: &Quast,
    term: &Cold,
    place: &Place,
) -> Result<(), Refused>
    requires { ColdFits (meaning program.now) (tree_of quast.now) (term_of term.now) }
    ensures { Decides (term_leaves (meaning program.now) place.now (tree_of quast.now) (term_of term.now)) result }
{
    let vars = variables(program, term);
    let system = rows_before(alloc, program, term.nest.bounds())?;
    let leaves = leaves_of(alloc, program, quast, term)?;
    let list = place.within(alloc, Step::Key(ObjectKey("leaves")))?;
    leaves_shown(
        alloc,
        vars,
        system.rows(),
        &list,
        leaves.as_slice(),
        term.leaves.as_slice(),
    )
}

/// The leaves of the read's source tree that aren't empty.
pub(crate) fn leaves_of(
    alloc: Global,
    program: &Program,
    quast: &Quast,
    term: &Cold,
) -> Result<Vec<OpenLeaf>, Memory>
    requires { ColdFits (meaning program.now) (tree_of quast.now) (term_of term.now) }
    ensures leaves { IfOk result (λ leaves. leaves.items
        ≡ open_leaves (nest_variables (meaning program.now) (term_of term.now)) (instance_point (meaning program.now) (term_of term.now)) [] (tree_of quast.now)) }
    ensures over { IfOk result (λ leaves. AllByRecursion (λ (l : open_leaf). AllOver (nest_variables (meaning program.now) (term_of term.now)) l.tests) leaves.items) }
{
    let vars = variables(program, term);
    let point = instance_of(alloc, program, term)?;
    let mut leaves = Vec::new(alloc);
    push_open_leaves(alloc, &mut leaves, vars, point.as_slice(), &[], quast)?;
    Ok(leaves)
}

/// Whether the matrix turns the subscripts of the cell back into the scale times the nest's variables.
pub(crate) fn cells_undone(
    alloc: Global,
    program: &Program,
    term: &Cold,
    place: &Place,
) -> Result<(), Refused>
    requires { TermFits (meaning program.now) (term_of term.now) }
    ensures { Decides (matrix_claims (meaning program.now) place.now (term_of term.now)) result }
{
    let cell = cell_of(alloc, program, term)?;
    let params = program.params().len();
    let size = term.nest.bounds().len();
    inverse_shown(alloc, &term.inverse, cell.as_slice(), params, size, place)
}
