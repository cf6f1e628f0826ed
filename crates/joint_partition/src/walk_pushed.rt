//! The pieces of walks, where the rows of their contexts are few.

ghost use Rattle.std.specs.Prelude.{◌≡◌, ◌++◌, [], length, OnOk};
ghost use Rattle.std.specs.List.{AllByRecursion};
ghost use Rattle.affine_form.specs.System.{AllOver};
ghost use Rattle.claims.specs.Claims.{AllHold};
ghost use Rattle.footprint_pieces.specs.Pieces.{pieces_of, PieceFits};
ghost use Rattle.reuse_paths.specs.FewContexts.{few_walk, ReadersFit, TakesFit};
ghost use Rattle.reuse_paths.specs.WalkPieces.{walk_pieces};
ghost use Rattle.reuse_paths.specs.WalkSettings.{region_context, region_variables};
ghost use Rattle.reuse_paths.specs.WalkViews.{walk_of};
ghost use Rattle.reuse_paths.specs.Walks.{tree_of_walk};

use affine_form::{Form, Memory};
use claims::{Place, Refused};
use reuse_paths::{Piece, Walk, Walking, push_walk, region_context};
use std::alloc::Global;

/// Those that a walk takes from the instances of a statement which meet these rows of a region, appended.
pub(crate) fn push_region(
    alloc: Global,
    pieces: &mut Vec<Piece>,
    walking: &Walking,
    statement: u16,
    own: &[Form],
    tree: &Walk,
) -> Result<(), Memory>
    requires flat { length (walk_of walking.now).nest ≡ 0 }
    requires readers { ReadersFit (walk_of walking.now) statement }
    requires own_over { AllOver (region_variables (walk_of walking.now) statement) own.now }
    requires takes { TakesFit (walk_of walking.now) statement (tree_of_walk tree.now) }
    requires few { AllHold (few_walk (walk_of walking.now) statement [] (region_context (walk_of walking.now) statement own.now) (tree_of_walk tree.now)) }
    ensures pieces { OnOk result (pieces_of pieces.new ≡ pieces_of pieces.old ++ walk_pieces (walk_of walking.now) statement (region_context (walk_of walking.now) statement own.now) (tree_of_walk tree.now)) }
    ensures fit { OnOk result (AllByRecursion (PieceFits (walk_of walking.now).program) (walk_pieces (walk_of walking.now) statement (region_context (walk_of walking.now) statement own.now) (tree_of_walk tree.now))) }
{
    let _params = walking.program.params();
    let place = Place::new(Vec::new(alloc));
    let all = region_context(alloc, walking, statement, own)?;
    let rows = all.as_slice();
    match push_walk(alloc, pieces, walking, &place, statement, rows, tree) {
        Ok(()) => Ok(()),
        Err(Refused::Memory) => Err(Memory),
        Err(Refused::Failed(_)) => unreachable!(),
    }
}
