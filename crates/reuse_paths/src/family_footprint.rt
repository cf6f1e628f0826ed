//! The pieces of a family's footprint.

ghost use Rattle.std.specs.Prelude.{◌≡◌, ◌<◌, ◌+◌, ◌++◌, ◌∷◌, [], length, map, option_map, IfErr, IfOk, OnOk, codes};
ghost use Rattle.std.specs.List.{AllByRecursion};
ghost use Rattle.affine_form.specs.Rows.{BoundsFit};
ghost use Rattle.affine_form.specs.System.{AllOver};
ghost use Rattle.affine_program.specs.Domain.{depth_of};
ghost use Rattle.affine_program.specs.Parts.{meaning};
ghost use Rattle.claims.specs.Claims.{AllHold, IsRefusal, numbered};
ghost use Rattle.claims.specs.declared.place.Step.TheVariants.{Key};
ghost use Rattle.reuse_paths.specs.Families.{boxed_node, family_of, node_region};
ghost use Rattle.reuse_paths.specs.FamilyClaims.{start_rows as rows_of_start};
ghost use Rattle.reuse_paths.specs.FamilyPieces.{family_pieces, region_pieces, regions_pieces};
ghost use Rattle.reuse_paths.specs.FewContexts.{few_contexts, few_region, few_walk, FitsSome, ReadersFit, RegionTakesFit, RegionsTakeFit, TakesFit};
ghost use Rattle.footprint_pieces.specs.Pieces.{pieces_of, PieceFits};
ghost use Rattle.dep_quast.specs.Quasts.{trees_of};
ghost use Rattle.dep_quast.specs.Trees.{RowsFit};
ghost use Rattle.reuse_paths.specs.WalkPieces.{walk_pieces};
ghost use Rattle.reuse_paths.specs.WalkSettings.{region_context as context_of, region_variables as variables_of};
ghost use Rattle.reuse_paths.specs.WalkViews.{walk_of, SettingFits};
ghost use Rattle.reuse_paths.specs.Walks.{tree_of_walk};

use crate::family::{Family, FamilyNode};
use crate::family_shown::{start_rows, walking_from};
use crate::leaf_pieces::push_taken;
use crate::region::region_context;
use crate::walk::Walk;
use crate::walk_shown::rows_of_no;
use crate::walking::{Walking, region_variables};
use affine_form::{Form, Memory};
use affine_program::Program;
use claims::lists::with_form;
use claims::{ObjectKey, Place, Refused, Step};
use dep_quast::Quasts;
use dep_quast::reader::Reader;
use domain_count::Nest;
use footprint_pieces::Piece;
use std::alloc::Global;

/// Those that a walk takes from the instances of a statement which meet these rows, `yes` before `no`, appended.
pub fn push_walk(
    alloc: Global,
    pieces: &mut Vec<Piece>,
    walking: &Walking,
    place: &Place,
    statement: u16,
    rows: &[Form],
    tree: &Walk,
) -> Result<(), Refused>
    requires readers { ReadersFit (walk_of walking.now) statement }
    requires rows_over { AllOver (variables_of (walk_of walking.now) statement) rows.now }
    requires walk_fits { TakesFit (walk_of walking.now) statement (tree_of_walk tree.now) }
    ensures pieces { OnOk result (pieces_of pieces.new ≡ pieces_of pieces.old ++ walk_pieces (walk_of walking.now) statement rows.now (tree_of_walk tree.now)) }
    ensures few { OnOk result (AllHold (few_walk (walk_of walking.now) statement place.now rows.now (tree_of_walk tree.now))) }
    ensures refused { IfErr result (IsRefusal (few_walk (walk_of walking.now) statement place.now rows.now (tree_of_walk tree.now))) }
{
    match tree {
        Walk::Test { form, yes, no } => {
            let vars = region_variables(walking, statement);
            let above = with_form(alloc, rows, form.try_clone(alloc)?)?;
            let side = place.within(alloc, Step::Key(ObjectKey("yes")))?;
            push_walk(
                alloc,
                pieces,
                walking,
                &side,
                statement,
                above.as_slice(),
                yes,
            )?;
            let below = rows_of_no(alloc, vars, rows, form)?;
            let side = place.within(alloc, Step::Key(ObjectKey("no")))?;
            push_walk(
                alloc,
                pieces,
                walking,
                &side,
                statement,
                below.as_slice(),
                no,
            )
        }
        Walk::Take { read, leaves } => {
            let entries = leaves.as_slice();
            let reader = Reader {
                statement,
                read: *read,
            };
            push_taken(alloc, pieces, walking, place, reader, rows, entries)
        }
    }
}

/// The place of a start walk in a family, and that of its nodes.
fn place_of_start(alloc: Global) -> Result<Place, Memory>
    ensures { IfOk result (λ place. place ≡ Key (codes "start") ∷ Key (codes "tree") ∷ []) }
{
    Ok(Place::new(vec![in alloc; Step::Key(ObjectKey("start")), Step::Key(ObjectKey("tree"))]?))
}

fn place_of_nodes(alloc: Global) -> Result<Place, Memory>
    ensures { IfOk result (λ place. place ≡ Key (codes "nodes") ∷ []) }
{
    Ok(Place::new(vec![in alloc; Step::Key(ObjectKey("nodes"))]?))
}

/// Those of the walk from the instances in a nest, at `start/tree` of a family, appended.
fn push_start(
    alloc: Global,
    pieces: &mut Vec<Piece>,
    walking: &Walking,
    statement: u16,
    nest: &Nest,
    tree: &Walk,
) -> Result<(), Refused>
    requires flat { length (walk_of walking.now).nest ≡ 0 }
    requires readers { ReadersFit (walk_of walking.now) statement }
    requires each { length nest.now ≡ depth_of (walk_of walking.now).program statement }
    requires bounds { BoundsFit (length (walk_of walking.now).program.parameters) nest.now }
    requires walk_fits { TakesFit (walk_of walking.now) statement (tree_of_walk tree.now) }
    ensures pieces { OnOk result (pieces_of pieces.new ≡ pieces_of pieces.old ++ walk_pieces (walk_of walking.now) statement (context_of (walk_of walking.now) statement (rows_of_start (walk_of walking.now) statement nest.now)) (tree_of_walk tree.now)) }
    ensures fit { OnOk result (AllByRecursion (PieceFits (walk_of walking.now).program) (walk_pieces (walk_of walking.now) statement (context_of (walk_of walking.now) statement (rows_of_start (walk_of walking.now) statement nest.now)) (tree_of_walk tree.now))) }
    ensures few { OnOk result (AllHold (few_walk (walk_of walking.now) statement (Key (codes "start") ∷ Key (codes "tree") ∷ []) (context_of (walk_of walking.now) statement (rows_of_start (walk_of walking.now) statement nest.now)) (tree_of_walk tree.now))) }
    ensures refused { IfErr result (IsRefusal (few_walk (walk_of walking.now) statement (Key (codes "start") ∷ Key (codes "tree") ∷ []) (context_of (walk_of walking.now) statement (rows_of_start (walk_of walking.now) statement nest.now)) (tree_of_walk tree.now))) }
{
    let _params = walking.program.params();
    let own = start_rows(alloc, walking, statement, nest)?;
    let rows = region_context(alloc, walking, statement, own.as_slice())?;
    let place = place_of_start(alloc)?;
    push_walk(
        alloc,
        pieces,
        walking,
        &place,
        statement,
        rows.as_slice(),
        tree,
    )
}

/// Those of the walk from the instances in the region of a statement's node, where it has one, in a list at this place,
/// appended.
fn push_region(
    alloc: Global,
    pieces: &mut Vec<Piece>,
    walking: &Walking,
    list: &Place,
    statement: u16,
    node: &Option<Box<FamilyNode>>,
) -> Result<(), Refused>
    requires flat { length (walk_of walking.now).nest ≡ 0 }
    requires readers { ReadersFit (walk_of walking.now) statement }
    requires takes { RegionTakesFit (walk_of walking.now) statement (node_region (option_map boxed_node node.now)) }
    ensures pieces { OnOk result (pieces_of pieces.new ≡ pieces_of pieces.old ++ region_pieces (walk_of walking.now) statement (node_region (option_map boxed_node node.now))) }
    ensures fit { OnOk result (AllByRecursion (PieceFits (walk_of walking.now).program) (region_pieces (walk_of walking.now) statement (node_region (option_map boxed_node node.now)))) }
    ensures few { OnOk result (AllHold (few_region (walk_of walking.now) list.now statement (node_region (option_map boxed_node node.now)))) }
    ensures refused { IfErr result (IsRefusal (few_region (walk_of walking.now) list.now statement (node_region (option_map boxed_node node.now)))) }
{
    let _params = walking.program.params();
    let Some(node) = node else {
        return Ok(());
    };
    let Some(region) = &node.region else {
        return Ok(());
    };
    let rows = region_context(alloc, walking, statement, region.rows.as_slice())?;
    let at = list.within(alloc, Step::Index(u64::from(statement)))?;
    let inner = at.within(alloc, Step::Key(ObjectKey("region")))?;
    let place = inner.within(alloc, Step::Key(ObjectKey("tree")))?;
    push_walk(
        alloc,
        pieces,
        walking,
        &place,
        statement,
        rows.as_slice(),
        &region.tree,
    )
}

/// Those of the regions of nodes, in the order of statements, each at its index in the list at this place, appended.
fn push_regions(
    alloc: Global,
    pieces: &mut Vec<Piece>,
    walking: &Walking,
    list: &Place,
    nodes: &[Option<Box<FamilyNode>>],
) -> Result<(), Refused>
    requires flat { length (walk_of walking.now).nest ≡ 0 }
    requires nodes { (walk_of walking.now).nodes ≡ map node_region (map (option_map boxed_node) nodes.now) }
    requires setting { SettingFits (walk_of walking.now) }
    requires take { RegionsTakeFit (walk_of walking.now) 0 (walk_of walking.now).nodes }
    ensures pieces { OnOk result (pieces_of pieces.new ≡ pieces_of pieces.old ++ regions_pieces (walk_of walking.now) 0 (walk_of walking.now).nodes) }
    ensures fit { OnOk result (AllByRecursion (PieceFits (walk_of walking.now).program) (regions_pieces (walk_of walking.now) 0 (walk_of walking.now).nodes)) }
    ensures few { OnOk result (AllHold (numbered (few_region (walk_of walking.now) list.now) 0 (walk_of walking.now).nodes)) }
    ensures refused { IfErr result (IsRefusal (numbered (few_region (walk_of walking.now) list.now) 0 (walk_of walking.now).nodes)) }
{
    let _params = walking.program.params();
    for i in 0..nodes.len() {
        push_region(alloc, pieces, walking, list, i as u16, &nodes[i])?;
    }
    Ok(())
}

/// The pieces of the footprint of a family of a nest of instances of a statement: one for each open leaf of the source tree
/// of a read that its walks take, unless its entry says that no point comes there or the leaf doesn't say where the word
/// comes from. First those of the start walk, then those of the regions, in the order of statements. The source trees fit
/// the program, and the family does, with some matrix and credits, of which the pieces need nothing.
///
/// # Errors
///
/// 2 at the first leaf, within the family, whose context has more than 128 rows: at the entry's first multipliers, or at the
/// leaf where it has none.
pub fn family_pieces(
    alloc: Global,
    program: &Program,
    quasts: &Quasts,
    statement: u16,
    nest: &Nest,
    family: &Family,
) -> Result<Vec<Piece>, Refused>
    requires trees_fit { RowsFit (meaning program.now) 0 (trees_of quasts.now) }
    requires fits { FitsSome (meaning program.now) (trees_of quasts.now) statement nest.now (family_of family.now) }
    ensures pieces { IfOk result (λ pieces. pieces_of pieces ≡ family_pieces (meaning program.now) (trees_of quasts.now) statement nest.now (family_of family.now)) }
    ensures fit { IfOk result (λ pieces. AllByRecursion (PieceFits (meaning program.now)) (pieces_of pieces)) }
    ensures few { OnOk result (AllHold (few_contexts (meaning program.now) (trees_of quasts.now) statement nest.now (family_of family.now) [])) }
    ensures refused { IfErr result (IsRefusal (few_contexts (meaning program.now) (trees_of quasts.now) statement nest.now (family_of family.now) [])) }
{
    let _params = program.params();
    let none = Nest::new(Vec::new(alloc));
    let label = family.start_label.as_slice();
    let walking = walking_from(program, quasts, &none, &[], family, label);
    let mut pieces = Vec::new(alloc);
    push_start(alloc, &mut pieces, &walking, statement, nest, &family.start)?;
    let list = place_of_nodes(alloc)?;
    push_regions(alloc, &mut pieces, &walking, &list, family.nodes.as_slice())?;
    Ok(pieces)
}
