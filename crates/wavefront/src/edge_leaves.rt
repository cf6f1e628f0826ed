//! The leaves of a wavefront term's edge, one after another.
#![tactic(auto, using(claims::proofs::Found::in_a_row))]

ghost use Rattle.std.specs.Prelude.{◌≡◌, ◌≤◌, length, map, option_map, IfOk};
ghost use Rattle.std.specs.List.{AllByRecursion};
ghost use Rattle.affine_form.specs.Rows.{IsSmallOver};
ghost use Rattle.affine_form.specs.System.{AllOver};
ghost use Rattle.affine_program.specs.Parts.{meaning};
ghost use Rattle.claims.specs.Claims.{Decides};
ghost use Rattle.dep_quast.specs.Tree.{tree_of};
ghost use Rattle.reuse_paths.specs.LeafClaims.{claim_of};
ghost use Rattle.reuse_paths.specs.Walks.{spot_of};
ghost use Rattle.wavefront.specs.EdgeViews.{AreFit};
ghost use Rattle.wavefront.specs.FrontClaims.{edge_leaves, edges_claims, front_edges};
ghost use Rattle.wavefront.specs.FrontFits.{EdgesFit, PartsFit};
ghost use Rattle.wavefront.specs.View.{front_of};
ghost use Rattle.iolb_model.specs.declared.limits.TheConstants.{VARIABLES};

use crate::edges_shown::edge_shown;
use crate::front::Wavefront;
use crate::front_shown::{user_at, variables};
use affine_form::{Form, Memory};
use affine_program::Program;
use claims::{ObjectKey, Place, Refused, Step};
use dep_quast::Quast;
use dep_quast::open_leaves::{OpenLeaf, push_open_leaves};
use domain_count::rows_before;
use reuse_paths::{Leaf, Spot};
use std::alloc::Global;

/// Whether what entries claim at leaves is shown, one for each: the first that isn't, by its place in the list at this place.
fn all_shown(
    alloc: Global,
    vars: usize,
    rows: &[Form],
    point: &[Form],
    source: &Option<Spot>,
    list: &Place,
    leaves: &[OpenLeaf],
    entries: &[Leaf],
) -> Result<(), Refused>
    requires few { vars ≤ VARIABLES }
    requires few_forms { length point.now ≤ VARIABLES }
    requires rows_over { AllOver vars rows.now }
    requires point_over { AllByRecursion (IsSmallOver vars) point.now }
    requires one_each { length entries.now ≡ length leaves.now }
    requires fit { AreFit vars (length point.now) (option_map spot_of source.now) leaves.now (map claim_of entries.now) }
    ensures { Decides (edges_claims vars rows.now point.now (option_map spot_of source.now) list.now 0 leaves.now (map claim_of entries.now)) result }
{
    for i in 0..leaves.len() {
        let place = list.within(alloc, Step::Index(i as u64))?;
        let (leaf, entry) = (&leaves[i], &entries[i]);
        edge_shown(alloc, vars, rows, point, source, &place, leaf, entry)?;
    }
    Ok(())
}

/// The leaves of the source tree of the user's read that aren't empty.
fn leaves_at(
    alloc: Global,
    program: &Program,
    quast: &Quast,
    term: &Wavefront,
) -> Result<Vec<OpenLeaf>, Memory>
    requires parts { PartsFit (meaning program.now) (front_of term.now) }
    requires fits { EdgesFit (meaning program.now) (tree_of quast.now) (front_of term.now) }
    ensures { IfOk result (λ leaves. leaves.items ≡ edge_leaves (meaning program.now) (tree_of quast.now) (front_of term.now)) }
{
    let vars = variables(program, term);
    let point = user_at(alloc, program, term)?;
    let mut leaves = Vec::new(alloc);
    push_open_leaves(alloc, &mut leaves, vars, point.as_slice(), &[], quast)?;
    Ok(leaves)
}

/// Whether the word is shown to be what the term says, at each leaf of the source tree of the user's read.
pub(crate) fn edges_shown(
    alloc: Global,
    program: &Program,
    quast: &Quast,
    term: &Wavefront,
    place: &Place,
) -> Result<(), Refused>
    requires parts { PartsFit (meaning program.now) (front_of term.now) }
    requires fits { EdgesFit (meaning program.now) (tree_of quast.now) (front_of term.now) }
    ensures { Decides (front_edges (meaning program.now) place.now (tree_of quast.now) (front_of term.now)) result }
{
    let vars = variables(program, term);
    let point = user_at(alloc, program, term)?;
    let system = rows_before(alloc, program, term.nest.bounds())?;
    let leaves = leaves_at(alloc, program, quast, term)?;
    let list = place.within(alloc, Step::Key(ObjectKey("edge")))?;
    all_shown(
        alloc,
        vars,
        system.rows(),
        point.as_slice(),
        &term.source,
        &list,
        leaves.as_slice(),
        term.edge.as_slice(),
    )
}
