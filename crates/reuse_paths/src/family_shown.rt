//! The check of families.
#![tactic(auto, using(claims::proofs::Found::in_a_row))]

ghost use Rattle.std.specs.Prelude.{◌≡◌, ◌↔◌, ◌<◌, ◌+◌, ◌*◌, ◌^◌, ◌*ℤ◌, ◌++◌, ◌∷◌, [], pos, unsigned_abs, length, map, option_map, Some, IfOk, IfErr, IsTrue, OnOk, codes};
ghost use Rattle.std.specs.List.{AllByRecursion};
ghost use Rattle.affine_form.specs.Form.{variables};
ghost use Rattle.affine_form.specs.Rows.{BoundsFit};
ghost use Rattle.affine_form.specs.System.{AllOver};
ghost use Rattle.affine_program.specs.Domain.{depth_of};
ghost use Rattle.affine_program.specs.Parts.{meaning};
ghost use Rattle.claims.specs.Claims.{AllHold, Decides, IsRefusal, numbered};
ghost use Rattle.claims.specs.declared.place.Step.TheVariants.{Key};
ghost use Rattle.reuse_paths.specs.Families.{boxed_node, credit_of, family_of, NodeForms};
ghost use Rattle.reuse_paths.specs.FamilyClaims.{family_claims, family_setting, label_rows, node_walk, region_walk, start_rows, start_walk, IsScaledRow};
ghost use Rattle.reuse_paths.specs.FamilyFits.{CountedFits, FamilyFits, NodeFits, NodesFit};
ghost use Rattle.dep_quast.specs.Quasts.{trees_of};
ghost use Rattle.reuse_paths.specs.SoundFamilies.{IsSoundFamily};
ghost use Rattle.dep_quast.specs.Trees.{RowsAreTrue, RowsFit};
ghost use Rattle.reuse_paths.specs.WalkClaims.{walk_claims};
ghost use Rattle.reuse_paths.specs.WalkFits.{IsLabel, NestFits, RegionFits, WalkFits};
ghost use Rattle.reuse_paths.specs.Walks.{boxed_region, tree_of_walk};
ghost use Rattle.reuse_paths.specs.WalkSettings.{region_context, region_variables};
ghost use Rattle.reuse_paths.specs.WalkViews.{walk_of, ReadingFits, SettingFits};

use crate::family::{Credit, Family, FamilyNode, Nodes};
use crate::law::families_are_sound;
use crate::region::region_context;
use crate::walk::{Region, Walk};
use crate::walk_shown::walk_shown;
use crate::walking::{Aim, Kept, Walking, region_values, region_variables};
use affine_form::{Form, Matrix, Memory, variables_from, within_rows};
use affine_program::Program;
use claims::{ObjectKey, Place, Refused, Step, refusal};
use dep_quast::Quasts;
use dep_quast::reader::depth;
use domain_count::Nest;
use std::alloc::Global;

/// A number times a scale.
fn scaled(scale: u32, number: i32) -> i128
    requires { scale * unsigned_abs number < 2 ^ 127 }
    ensures { result ≡ pos scale *ℤ number }
{
    i128::from(scale) * i128::from(number)
}

/// Whether a form's numbers of so many loop values behind the parameters are a scale times a row of a matrix.
fn is_scaled_row(
    matrix: &Matrix,
    scale: u32,
    params: usize,
    loops: usize,
    row: u8,
    form: &Form,
) -> bool
    requires row_in { row < matrix.now.rows }
    requires columns { matrix.now.columns ≡ loops }
    requires over { variables form.now ≡ params + loops }
    ensures { IsTrue result ↔ IsScaledRow matrix.now scale params loops row form.now }
{
    let coef = form.coef();
    for column in 0..loops {
        let number = matrix.entry(usize::from(row), column);
        if coef[params + column] != scaled(scale, number) {
            return false;
        }
    }
    true
}

/// Whether the start label is shown to fix the rows of the set: the first of its forms that doesn't, by its place in the
/// label at this place.
fn label_shown(
    alloc: Global,
    program: &Program,
    statement: u16,
    nest: &Nest,
    matrix: &Matrix,
    family: &Family,
    list: &Place,
) -> Result<(), Refused>
    requires counted { CountedFits (meaning program.now) statement nest.now matrix.now }
    requires set { AllByRecursion (λ row. row < matrix.now.rows) (family_of family.now).set }
    requires label { IsLabel (length (family_of family.now).set) (length program.now.params + depth_of (meaning program.now) statement) (family_of family.now).start_label }
    ensures { Decides (label_rows matrix.now family.now.scale (length program.now.params) (depth_of (meaning program.now) statement) list.now 0
        (family_of family.now).set (family_of family.now).start_label) result }
{
    let params = program.params().len();
    let loops = depth(program, statement);
    let set = family.set.coords();
    let label = family.start_label.as_slice();
    for (i, row) in set.iter().enumerate() {
        if !is_scaled_row(matrix, family.scale, params, loops, *row, &label[i]) {
            let place = list.within(alloc, Step::Index(i as u64))?;
            return Err(refusal(alloc, 13, &place));
        }
    }
    Ok(())
}

/// The rows of a nest of instances of a statement, whose variables are the loop values.
pub fn start_rows(
    alloc: Global,
    walking: &Walking,
    statement: u16,
    nest: &Nest,
) -> Result<Vec<Form>, Memory>
    requires nest { NestFits (walk_of walking.now).program (walk_of walking.now).nest }
    requires there { statement < length (walk_of walking.now).program.statements }
    requires each { length nest.now ≡ depth_of (walk_of walking.now).program statement }
    requires bounds { BoundsFit (length (walk_of walking.now).program.parameters) nest.now }
    ensures rows { IfOk result (λ rows. rows.items ≡ start_rows (walk_of walking.now) statement nest.now) }
    ensures over { IfOk result (λ rows. AllOver (region_variables (walk_of walking.now) statement) rows.items) }
{
    let vars = region_variables(walking, statement);
    let params = variables_from(alloc, vars, 0, walking.program.params().len())?;
    let values = region_values(alloc, walking, statement)?;
    let bounds = nest.bounds();
    let rows = within_rows(alloc, vars, bounds, params.as_slice(), values.as_slice())?;
    Ok(rows)
}

/// Whether what a walk from the instances in a nest claims is shown, at `start/tree` behind this place.
fn start_shown(
    alloc: Global,
    walking: &Walking,
    statement: u16,
    nest: &Nest,
    tree: &Walk,
    place: &Place,
) -> Result<(), Refused>
    requires fits { ReadingFits (walk_of walking.now) statement }
    requires each { length nest.now ≡ depth_of (walk_of walking.now).program statement }
    requires bounds { BoundsFit (length (walk_of walking.now).program.parameters) nest.now }
    requires walk_fits { WalkFits (walk_of walking.now) statement (tree_of_walk tree.now) }
    ensures { Decides (walk_claims walking.now.condition (walk_of walking.now) statement (place.now ++ Key (codes "start") ∷ Key (codes "tree") ∷ [])
        (region_context (walk_of walking.now) statement (start_rows (walk_of walking.now) statement nest.now)) (tree_of_walk tree.now)) result }
{
    let own = start_rows(alloc, walking, statement, nest)?;
    let rows = region_context(alloc, walking, statement, own.as_slice())?;
    let start = place.within(alloc, Step::Key(ObjectKey("start")))?;
    let there = start.within(alloc, Step::Key(ObjectKey("tree")))?;
    walk_shown(alloc, walking, &there, statement, rows.as_slice(), tree)
}

/// Whether what a walk from the instances in a region claims is shown, where there is one, in a list at this place.
fn region_shown(
    alloc: Global,
    walking: &Walking,
    list: &Place,
    statement: u16,
    region: &Option<Box<Region>>,
) -> Result<(), Refused>
    requires fits { ReadingFits (walk_of walking.now) statement }
    requires region_fits { RegionFits (walk_of walking.now) statement (option_map boxed_region region.now) }
    requires condition { walking.now.condition ≡ 15 }
    ensures { Decides (region_walk (walk_of walking.now) list.now statement (option_map boxed_region region.now)) result }
{
    let Some(region) = region else {
        return Ok(());
    };
    let rows = region_context(alloc, walking, statement, region.rows.as_slice())?;
    let node = list.within(alloc, Step::Index(u64::from(statement)))?;
    let inner = node.within(alloc, Step::Key(ObjectKey("region")))?;
    let place = inner.within(alloc, Step::Key(ObjectKey("tree")))?;
    walk_shown(
        alloc,
        walking,
        &place,
        statement,
        rows.as_slice(),
        &region.tree,
    )
}

/// The walks of a family from readers with this label: there is no nest around them.
pub(crate) fn walking_from<'a>(
    program: &'a Program,
    quasts: &'a Quasts,
    none: &'a Nest,
    credits: &'a [Credit],
    family: &'a Family,
    reader: &'a [Form],
) -> Walking<'a>
    requires { none.now ≡ [] }
    ensures setting { walk_of result ≡ family_setting (meaning program.now) (trees_of quasts.now) (map credit_of credits.now) (family_of family.now) reader.now }
    ensures condition { result.condition ≡ 15 }
{
    Walking {
        program,
        quasts,
        nest: none,
        aim: Aim::Keep(Kept {
            nodes: Nodes::Together(family.nodes.as_slice()),
            inputs: family.inputs.as_slice(),
            credits,
            reader,
        }),
        condition: 15,
    }
}

/// Whether what the walk from the instances that are counted claims is shown.
fn counted_shown(
    alloc: Global,
    program: &Program,
    quasts: &Quasts,
    none: &Nest,
    statement: u16,
    nest: &Nest,
    credits: &[Credit],
    family: &Family,
    place: &Place,
) -> Result<(), Refused>
    requires none { none.now ≡ [] }
    requires fits { ReadingFits (family_setting (meaning program.now) (trees_of quasts.now) (map credit_of credits.now) (family_of family.now) (family_of family.now).start_label) statement }
    requires each { length nest.now ≡ depth_of (meaning program.now) statement }
    requires bounds { BoundsFit (length (meaning program.now).parameters) nest.now }
    requires walk_fits { WalkFits (family_setting (meaning program.now) (trees_of quasts.now) (map credit_of credits.now) (family_of family.now) (family_of family.now).start_label) statement (family_of family.now).start }
    ensures { Decides (start_walk (meaning program.now) (trees_of quasts.now) statement nest.now (map credit_of credits.now) (family_of family.now) place.now) result }
{
    let label = family.start_label.as_slice();
    let walking = walking_from(program, quasts, none, credits, family, label);
    start_shown(alloc, &walking, statement, nest, &family.start, place)
}

/// Whether what the walk in the region of a node claims is shown, where there is one, in a list at this place.
fn node_shown(
    alloc: Global,
    program: &Program,
    quasts: &Quasts,
    none: &Nest,
    credits: &[Credit],
    family: &Family,
    list: &Place,
    statement: u16,
    node: &Option<Box<FamilyNode>>,
) -> Result<(), Refused>
    requires none { none.now ≡ [] }
    requires fits { (here : NodeForms) → option_map boxed_node node.now ≡ Some here
        → ReadingFits (family_setting (meaning program.now) (trees_of quasts.now) (map credit_of credits.now) (family_of family.now) here.label) statement }
    requires region_fits { NodeFits (meaning program.now) (trees_of quasts.now) (map credit_of credits.now) (family_of family.now) statement (option_map boxed_node node.now) }
    ensures { Decides (node_walk (meaning program.now) (trees_of quasts.now) (map credit_of credits.now) (family_of family.now) list.now statement (option_map boxed_node node.now)) result }
{
    let Some(node) = node else {
        return Ok(());
    };
    let label = node.label.as_slice();
    let walking = walking_from(program, quasts, none, credits, family, label);
    region_shown(alloc, &walking, list, statement, &node.region)
}

/// Whether what the walks in a family's regions claim is shown, in the order of statements, each at its index in the list at
/// this place.
fn nodes_shown(
    alloc: Global,
    program: &Program,
    quasts: &Quasts,
    none: &Nest,
    credits: &[Credit],
    family: &Family,
    list: &Place,
) -> Result<(), Refused>
    requires none { none.now ≡ [] }
    requires fits { SettingFits (family_setting (meaning program.now) (trees_of quasts.now) (map credit_of credits.now) (family_of family.now) (family_of family.now).start_label) }
    requires regions_fit { NodesFit (meaning program.now) (trees_of quasts.now) (map credit_of credits.now) (family_of family.now) 0 (family_of family.now).nodes }
    ensures { Decides (numbered (node_walk (meaning program.now) (trees_of quasts.now) (map credit_of credits.now) (family_of family.now) list.now) 0 (family_of family.now).nodes) result }
{
    let _params = program.params();
    let nodes = family.nodes.as_slice();
    for i in 0..nodes.len() {
        node_shown(
            alloc, program, quasts, none, credits, family, list, i as u16, &nodes[i],
        )?;
    }
    Ok(())
}

/// The place of a family's start label.
fn label_place(alloc: Global, place: &Place) -> Result<Place, Memory>
    ensures { IfOk result (λ label. label ≡ place.now ++ Key (codes "start") ∷ Key (codes "label") ∷ []) }
{
    let start = place.within(alloc, Step::Key(ObjectKey("start")))?;
    start.within(alloc, Step::Key(ObjectKey("label")))
}

/// Whether what a family claims is shown.
fn family_shown(
    alloc: Global,
    program: &Program,
    quasts: &Quasts,
    statement: u16,
    nest: &Nest,
    matrix: &Matrix,
    credits: &[Credit],
    family: &Family,
    place: &Place,
) -> Result<(), Refused>
    requires trees_fit { RowsFit (meaning program.now) 0 (trees_of quasts.now) }
    requires fits { FamilyFits (meaning program.now) (trees_of quasts.now) statement nest.now matrix.now (map credit_of credits.now) (family_of family.now) }
    ensures { Decides (family_claims (meaning program.now) (trees_of quasts.now) statement nest.now matrix.now (map credit_of credits.now) (family_of family.now) place.now) result }
{
    let label = label_place(alloc, place)?;
    label_shown(alloc, program, statement, nest, matrix, family, &label)?;
    let none = Nest::new(Vec::new(alloc));
    counted_shown(
        alloc, program, quasts, &none, statement, nest, credits, family, place,
    )?;
    let list = place.within(alloc, Step::Key(ObjectKey("nodes")))?;
    nodes_shown(alloc, program, quasts, &none, credits, family, &list)?;
    Ok(())
}

/// Checks what a family of a nest of instances of a statement claims, at this place of a certificate. The matrix has a row
/// and a column for each loop around the statement; the source trees, the nest, the matrix, the credits and the family fit
/// the program.
///
/// # Errors
///
/// The first claim that doesn't hold. At first 13 at `start/label/i` for the first form of the start label whose numbers of
/// the loop values aren't the scale times the row of the matrix in the set. Then the start walk, at `start/tree`, and the
/// walk in each region, in the order of statements, at `nodes/statement/region/tree`; behind `yes` and `no` there, at
/// `leaves/i` for the first leaf that isn't empty and of which it isn't shown: that it has no point (15, at `empty`); or that
/// it is an input, where the walk stops; or that its word was written in the credited nest that is named, or in the region
/// of a statement that has one (15, at `rows/i` for a row that isn't shown, else at the leaf); and that the word has the
/// label of the reader (14, at `stop/i` for an input, else at `label/i`, and at the leaf where the word has no label). 2 for
/// a system of more than 128 rows, at the leaf's first multipliers, or at the leaf.
pub fn check_family(
    alloc: Global,
    program: &Program,
    quasts: &Quasts,
    statement: u16,
    nest: &Nest,
    matrix: &Matrix,
    credits: &[Credit],
    family: &Family,
    place: &Place,
) -> Result<(), Refused>
    requires trees_fit { RowsFit (meaning program.now) 0 (trees_of quasts.now) }
    requires trees_true { RowsAreTrue (meaning program.now) 0 (trees_of quasts.now) }
    requires fits { FamilyFits (meaning program.now) (trees_of quasts.now) statement nest.now matrix.now (map credit_of credits.now) (family_of family.now) }
    ensures hold { OnOk result (AllHold (family_claims (meaning program.now) (trees_of quasts.now) statement nest.now matrix.now (map credit_of credits.now) (family_of family.now) place.now)) }
    ensures refused { IfErr result (λ refused. IsRefusal (family_claims (meaning program.now) (trees_of quasts.now) statement nest.now matrix.now (map credit_of credits.now) (family_of family.now) place.now) refused) }
    ensures sound { OnOk result (IsSoundFamily (meaning program.now) statement nest.now (map credit_of credits.now) (family_of family.now)) }
{
    let _params = program.params();
    families_are_sound();
    family_shown(
        alloc, program, quasts, statement, nest, matrix, credits, family, place,
    )
}
