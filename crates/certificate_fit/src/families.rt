//! Whether families of walks fit.
#![tactic(auto, using(claims::proofs::Found::in_a_row))]

ghost use Rattle.std.specs.Prelude.{◌≡◌, ◌+◌, ◌<◌, ◌≤◌, ◌↔◌, ◌∷◌, [], ◌++◌, length, map, option_map, IsTrue, codes};
ghost use Rattle.affine_program.specs.Domain.{depth_of};
ghost use Rattle.affine_program.specs.Parts.{meaning};
ghost use Rattle.claims.specs.Claims.{numbered, Decides};
ghost use Rattle.claims.specs.declared.place.Step.TheVariants.{Key};
ghost use Rattle.certificate_fit.specs.FamilyFit.{RisesBelow, families_fit, family_fit, label_fit, node_fit, node_fit_at, nodes_fit, set_fit, start_fit};
ghost use Rattle.reuse_paths.specs.Families.{boxed_node, credit_of, family_of, node_of};
ghost use Rattle.reuse_paths.specs.FamilyClaims.{family_setting};
ghost use Rattle.dep_quast.specs.Quasts.{trees_of};
ghost use Rattle.reuse_paths.specs.WalkViews.{walk_of};

use crate::counts::loops_around;
use crate::labels::{all_inputs_fit, instance_variables, label_fits};
use crate::lists::misfit;
use crate::walks::{region_fits, walk_fits};
use affine_form::Form;
use affine_program::Program;
use claims::{ObjectKey, Place, Refused, Step};
use domain_count::Nest;
use reuse_paths::{Aim, Credit, Family, FamilyNode, Kept, Nodes, Quasts, Walking};
use std::alloc::Global;

// ---- walks

/// The walks of a family from readers with this label: there is no nest around them.
fn walking_from<'a>(
    program: &'a Program,
    quasts: &'a Quasts,
    none: &'a Nest,
    credits: &'a [Credit],
    family: &'a Family,
    reader: &'a [Form],
) -> Walking<'a>
    requires { none.now ≡ [] }
    ensures { walk_of result ≡ family_setting (meaning program.now) (trees_of quasts.now) (map credit_of credits.now) (family_of family.now) reader.now }
{
    Walking {
        program,
        quasts,
        nest: none,
        aim: Aim::Keep(Kept {
            nodes: Nodes::Together(family.nodes.as_slice()),
            inputs: family.inputs.as_slice(),
            credits,
            reader,
        }),
        condition: 1,
    }
}

/// Whether what is said fits of the label of a statement's instances, at the key `label`.
fn instance_label_fits(
    alloc: Global,
    program: &Program,
    family: &Family,
    place: &Place,
    statement: u16,
    label: &[Form],
) -> Result<(), Refused>
    ensures { Decides (label_fit (length (family_of family.now).set) (length (meaning program.now).parameters + depth_of (meaning program.now) statement)
        (place.now ++ Key (codes "label") ∷ []) label.now) result }
{
    let size = family.set.coords().len();
    let variables = instance_variables(program, statement);
    label_fits(
        alloc,
        place,
        Step::Key(ObjectKey("label")),
        size,
        variables,
        label,
    )
}

/// Whether what is said fits of a node, at this place.
fn node_fits(
    alloc: Global,
    program: &Program,
    quasts: &Quasts,
    credits: &[Credit],
    family: &Family,
    place: &Place,
    statement: u16,
    node: &FamilyNode,
) -> Result<(), Refused>
    ensures { Decides (node_fit_at (meaning program.now) (trees_of quasts.now) (map credit_of credits.now) (family_of family.now) place.now statement (node_of node.now)) result }
{
    let label = node.label.as_slice();
    instance_label_fits(alloc, program, family, place, statement, label)?;
    let none = Nest::new(Vec::new(alloc));
    let walking = walking_from(program, quasts, &none, credits, family, label);
    let region = place.within(alloc, Step::Key(ObjectKey("region")))?;
    region_fits(alloc, &walking, statement, &region, &node.region)?;
    Ok(())
}

/// Whether what is said fits of what a family says of a statement, if it says something, in a list at this place.
fn node_fits_in(
    alloc: Global,
    program: &Program,
    quasts: &Quasts,
    credits: &[Credit],
    family: &Family,
    list: &Place,
    statement: u16,
    node: &Option<Box<FamilyNode>>,
) -> Result<(), Refused>
    ensures { Decides (node_fit (meaning program.now) (trees_of quasts.now) (map credit_of credits.now) (family_of family.now) list.now statement (option_map boxed_node node.now)) result }
{
    let Some(node) = node else {
        return Ok(());
    };
    let at = list.within(alloc, Step::Index(u64::from(statement)))?;
    node_fits(
        alloc, program, quasts, credits, family, &at, statement, node,
    )
}

/// Whether what is said fits of what a family says of the statements, in a list at this place.
fn all_nodes_fit_in(
    alloc: Global,
    program: &Program,
    quasts: &Quasts,
    credits: &[Credit],
    family: &Family,
    list: &Place,
    nodes: &[Option<Box<FamilyNode>>],
) -> Result<(), Refused>
    requires { length nodes.now ≡ length program.now.statements }
    ensures { Decides (numbered (node_fit (meaning program.now) (trees_of quasts.now) (map credit_of credits.now) (family_of family.now) list.now) 0 (map (option_map boxed_node) nodes.now)) result }
{
    let _params = program.params();
    for (statement, node) in nodes.iter().enumerate() {
        node_fits_in(
            alloc,
            program,
            quasts,
            credits,
            family,
            list,
            statement as u16,
            node,
        )?;
    }
    Ok(())
}

/// Whether what is said fits of what a family says of the statements.
fn all_nodes_fit(
    alloc: Global,
    program: &Program,
    quasts: &Quasts,
    credits: &[Credit],
    place: &Place,
    family: &Family,
) -> Result<(), Refused>
    ensures { Decides (nodes_fit (meaning program.now) (trees_of quasts.now) (map credit_of credits.now) (place.now ++ Key (codes "nodes") ∷ []) (family_of family.now)) result }
{
    let nodes = family.nodes.as_slice();
    if nodes.len() != program.statements().len() {
        return Err(misfit(alloc, place, Step::Key(ObjectKey("nodes"))));
    }
    let list = place.within(alloc, Step::Key(ObjectKey("nodes")))?;
    all_nodes_fit_in(alloc, program, quasts, credits, family, &list, nodes)?;
    Ok(())
}

/// Whether a row is at least the least that may follow, and below the depth.
fn is_next(row: usize, least: usize, depth: usize) -> bool
    ensures { IsTrue result ↔ ((least ≤ row) × (row < depth)) }
{
    least <= row && row < depth
}

/// Whether the rows of a set rise and are below the depth.
fn rises_below(depth: usize, set: &[u8]) -> bool
    ensures { IsTrue result ↔ RisesBelow depth 0 set.now }
{
    let mut least: usize = 0;
    for member in set {
        let row = usize::from(*member);
        if !is_next(row, least, depth) {
            return false;
        }
        least = row + 1;
    }
    true
}

/// Whether a set, the list with the key `set`, rises and is below the depth.
pub fn set_fits(alloc: Global, place: &Place, depth: usize, set: &[u8]) -> Result<(), Refused>
    ensures { Decides (set_fit depth (place.now ++ Key (codes "set") ∷ []) set.now) result }
{
    if rises_below(depth, set) {
        return Ok(());
    }
    Err(misfit(alloc, place, Step::Key(ObjectKey("set"))))
}

/// Whether what is said fits of the walk from the instances that are counted, and of its label, at this place.
fn start_fits(
    alloc: Global,
    program: &Program,
    quasts: &Quasts,
    statement: u16,
    credits: &[Credit],
    place: &Place,
    family: &Family,
) -> Result<(), Refused>
    ensures { Decides (start_fit (meaning program.now) (trees_of quasts.now) statement (map credit_of credits.now) place.now (family_of family.now)) result }
{
    let label = family.start_label.as_slice();
    instance_label_fits(alloc, program, family, place, statement, label)?;
    let none = Nest::new(Vec::new(alloc));
    let walking = walking_from(program, quasts, &none, credits, family, label);
    let tree = place.within(alloc, Step::Key(ObjectKey("tree")))?;
    walk_fits(alloc, &walking, statement, &tree, &family.start)?;
    Ok(())
}

// ---- families

/// Whether what is said fits of the set of a family, and of the walk from the instances that are counted.
fn counted_fits(
    alloc: Global,
    program: &Program,
    quasts: &Quasts,
    statement: u16,
    credits: &[Credit],
    place: &Place,
    family: &Family,
) -> Result<(), Refused>
    ensures { Decides (set_fit (depth_of (meaning program.now) statement) (place.now ++ Key (codes "set") ∷ []) (family_of family.now).set
        ++ start_fit (meaning program.now) (trees_of quasts.now) statement (map credit_of credits.now) (place.now ++ Key (codes "start") ∷ []) (family_of family.now)) result }
{
    let depth = loops_around(program, statement);
    set_fits(alloc, place, depth, family.set.coords())?;
    let start = place.within(alloc, Step::Key(ObjectKey("start")))?;
    start_fits(alloc, program, quasts, statement, credits, &start, family)?;
    Ok(())
}

/// Whether what is said fits of a family of counted instances of a statement, at this place.
fn family_fits(
    alloc: Global,
    program: &Program,
    quasts: &Quasts,
    statement: u16,
    credits: &[Credit],
    place: &Place,
    family: &Family,
) -> Result<(), Refused>
    ensures { Decides (family_fit (meaning program.now) (trees_of quasts.now) statement (map credit_of credits.now) place.now (family_of family.now)) result }
{
    let size = family.set.coords().len();
    all_inputs_fit(alloc, program, place, size, family.inputs.as_slice())?;
    all_nodes_fit(alloc, program, quasts, credits, place, family)?;
    counted_fits(alloc, program, quasts, statement, credits, place, family)?;
    Ok(())
}

/// Whether what is said fits of families of counted instances of a statement, in a list at this place.
pub fn all_families_fit(
    alloc: Global,
    program: &Program,
    quasts: &Quasts,
    statement: u16,
    credits: &[Credit],
    list: &Place,
    families: &[Family],
) -> Result<(), Refused>
    ensures { Decides (families_fit (meaning program.now) (trees_of quasts.now) statement (map credit_of credits.now) list.now (map family_of families.now)) result }
{
    for (index, family) in families.iter().enumerate() {
        let at = list.within(alloc, Step::Index(index as u64))?;
        family_fits(alloc, program, quasts, statement, credits, &at, family)?;
    }
    Ok(())
}
