//! Whether spots and walks fit.
#![tactic(auto, using(claims::proofs::Found::in_a_row))]

ghost use Rattle.std.specs.Prelude.{◌≡◌, ◌≤◌, ◌++◌, map, option_map, length, IfOk, OnOk, IsTrue, ◌↔◌};
ghost use Rattle.affine_program.specs.Parts.{meaning};
ghost use Rattle.claims.specs.Claims.{numbered, Decides};
ghost use Rattle.dep_quast.specs.Tree.{tree_of};
ghost use Rattle.dep_quast.specs.Views.{read_of};
ghost use Rattle.certificate_fit.specs.EntryFit.{leaf_names, names_in};
ghost use Rattle.certificate_fit.specs.EntryViews.{aim_of};
ghost use Rattle.certificate_fit.specs.WalkFit.{entry_aim, fit_in, region_fit, region_fit_at, row_count, rows_called as called_rows, same_count, spot_fit, take_fit, walk_fit, walked_fit};
ghost use Rattle.reuse_paths.specs.LeafClaims.{claim_of};
ghost use Rattle.dep_quast.specs.Quasts.{trees_of};
ghost use Rattle.reuse_paths.specs.ReachClaims.{setting_of};
ghost use Rattle.reuse_paths.specs.WalkSettings.{region_at, region_variables as variables_of};
ghost use Rattle.reuse_paths.specs.WalkViews.{walk_of};
ghost use Rattle.reuse_paths.specs.Walks.{reach_of, boxed_region, spot_of, tree_of_walk};

use crate::counts::{is_twice, loops_around, read_count};
use crate::entries::{Aimed, all_aimed_entries_fit};
use crate::lists::{all_forms_fit, list_fits, misfit, name_fits};
use affine_form::{Memory, Multipliers};
use affine_program::Program;
use claims::{ObjectKey, Place, Refused, Step};
use dep_quast::Quast;
use dep_quast::reader::Reader;
use domain_count::Nest;
use reuse_paths::{Aim, Leaf, Quasts, Reach, Region, Spot, Walk, Walking, region_at};
use std::alloc::Global;

/// Whether what is said fits of a spot with so many variables, at this place.
pub fn spot_fits(
    alloc: Global,
    program: &Program,
    place: &Place,
    variables: u128,
    spot: &Spot,
) -> Result<(), Refused>
    ensures { Decides (spot_fit (meaning program.now) variables place.now (spot_of spot.now)) result }
{
    let point = spot.point.as_slice();
    if point.len() != loops_around(program, spot.statement) {
        return Err(misfit(alloc, place, Step::Key(ObjectKey("point"))));
    }
    all_forms_fit(alloc, place, ObjectKey("point"), variables, point)?;
    let count = program.statements().len();
    let number = usize::from(spot.statement);
    name_fits(
        alloc,
        place,
        Step::Key(ObjectKey("statement")),
        number,
        count,
    )
}

/// How many rows the region of a statement has: none where it has no region.
fn region_rows(walking: &Walking, statement: u16) -> usize
    ensures { result ≡ row_count (region_at (walk_of walking.now).nodes statement) }
{
    match region_at(walking, statement) {
        Some(region) => region.rows.as_slice().len(),
        None => 0,
    }
}

/// What gives the lists of entries their lengths.
fn aimed<'a>(walking: &Walking<'a>) -> Aimed<'a>
    ensures { aim_of result ≡ entry_aim (walk_of walking.now) }
{
    match walking.aim {
        Aim::Arrive { target, .. } => Aimed {
            loops: loops_around(walking.program, target.statement),
            label: 0,
            credits: &[],
        },
        Aim::Keep(kept) => Aimed {
            loops: 0,
            label: kept.reader.len(),
            credits: kept.credits,
        },
    }
}

/// How many rows say that a walk may go on, for each leaf of a tree that isn't empty, appended.
fn push_called(called: &mut Vec<usize>, walking: &Walking, quast: &Quast) -> Result<(), Memory>
    ensures { OnOk result (called.new.items ≡ called.old.items ++ map (called_rows (walk_of walking.now).nodes) (names_in (tree_of quast.now))) }
{
    match quast {
        Quast::Test { yes, no, .. } => {
            push_called(called, walking, yes)?;
            push_called(called, walking, no)
        }
        Quast::Source { statement, .. } => Ok(called.push(region_rows(walking, *statement))?),
        Quast::Input { .. } | Quast::Blank => Ok(called.push(0)?),
        Quast::Empty { .. } => Ok(()),
    }
}

/// How many rows say that a walk may go on, for each leaf of a read's tree that isn't empty.
fn rows_called(alloc: Global, walking: &Walking, reader: Reader) -> Result<Vec<usize>, Memory>
    ensures { IfOk result (λ called. called.items
        ≡ map (called_rows (walk_of walking.now).nodes) (leaf_names (meaning walking.now.program.now) (trees_of walking.now.quasts.now) (read_of reader))) }
{
    let mut called = Vec::new(alloc);
    if usize::from(reader.read) < read_count(walking.program, reader.statement) {
        if let Some(quast) = walking.quasts.tree(reader.statement, reader.read) {
            push_called(&mut called, walking, quast)?;
        }
    }
    Ok(called)
}

/// Whether what is said fits of how a walk takes the source of a read.
fn take_fits(
    alloc: Global,
    walking: &Walking,
    place: &Place,
    reader: Reader,
    entries: &[Leaf],
) -> Result<(), Refused>
    ensures { Decides (take_fit (walk_of walking.now) (read_of reader) place.now (map claim_of entries.now)) result }
{
    let called = rows_called(alloc, walking, reader)?;
    let rows = called.as_slice();
    if entries.len() != rows.len() {
        return Err(misfit(alloc, place, Step::Key(ObjectKey("leaves"))));
    }
    let aimed = aimed(walking);
    all_aimed_entries_fit(alloc, place, ObjectKey("leaves"), aimed, rows, entries)?;
    let count = read_count(walking.program, reader.statement);
    name_fits(
        alloc,
        place,
        Step::Key(ObjectKey("read")),
        usize::from(reader.read),
        count,
    )
}

/// How many variables the region of a statement has: the parameters, the nest's, and the statement's loop values.
fn region_variables(walking: &Walking, statement: u16) -> u128
    ensures { result ≡ variables_of (walk_of walking.now) statement }
{
    let params = walking.program.params().len() as u128;
    let nest = walking.nest.bounds().len() as u128;
    params + nest + loops_around(walking.program, statement) as u128
}

/// Whether what is said fits of a walk from the instances of a statement, at this place.
pub fn walk_fits(
    alloc: Global,
    walking: &Walking,
    statement: u16,
    place: &Place,
    walk: &Walk,
) -> Result<(), Refused>
    ensures { Decides (walk_fit (walk_of walking.now) statement place.now (tree_of_walk walk.now)) result }
{
    match walk {
        Walk::Test { form, yes, no } => {
            if form.coef().len() as u128 != region_variables(walking, statement) {
                return Err(misfit(alloc, place, Step::Key(ObjectKey("form"))));
            }
            let side = place.within(alloc, Step::Key(ObjectKey("no")))?;
            walk_fits(alloc, walking, statement, &side, no)?;
            let side = place.within(alloc, Step::Key(ObjectKey("yes")))?;
            walk_fits(alloc, walking, statement, &side, yes)?;
            Ok(())
        }
        Walk::Take { read, leaves } => {
            let reader = Reader {
                statement,
                read: *read,
            };
            take_fits(alloc, walking, place, reader, leaves.as_slice())
        }
    }
}

/// Whether what is said fits of a statement's region, if it has one, at this place.
pub fn region_fits(
    alloc: Global,
    walking: &Walking,
    statement: u16,
    place: &Place,
    region: &Option<Box<Region>>,
) -> Result<(), Refused>
    ensures { Decides (region_fit_at (walk_of walking.now) statement place.now (option_map boxed_region region.now)) result }
{
    let Some(region) = region else {
        return Ok(());
    };
    let variables = region_variables(walking, statement);
    let rows = region.rows.as_slice();
    all_forms_fit(alloc, place, ObjectKey("rows"), variables, rows)?;
    let tree = place.within(alloc, Step::Key(ObjectKey("tree")))?;
    walk_fits(alloc, walking, statement, &tree, &region.tree)?;
    Ok(())
}

/// Whether what is said fits of the statements' regions, in a list at this place.
fn all_regions_fit(
    alloc: Global,
    walking: &Walking,
    list: &Place,
    nodes: &[Option<Box<Region>>],
) -> Result<(), Refused>
    requires { length nodes.now ≡ length walking.now.program.now.statements }
    ensures { Decides (numbered (region_fit (walk_of walking.now) list.now) 0 (map (option_map boxed_region) nodes.now)) result }
{
    let _params = walking.program.params();
    for (statement, region) in nodes.iter().enumerate() {
        let at = list.within(alloc, Step::Index(statement as u64))?;
        region_fits(alloc, walking, statement as u16, &at, region)?;
    }
    Ok(())
}

/// Whether what is said fits of what shows that a walk through these regions arrives, at this place.
fn walked_fits(
    alloc: Global,
    walking: &Walking,
    from: &Spot,
    place: &Place,
    start: &[Multipliers],
    nodes: &[Option<Box<Region>>],
) -> Result<(), Refused>
    requires { (walk_of walking.now).nodes ≡ map (option_map boxed_region) nodes.now }
    ensures { Decides (walked_fit (walk_of walking.now) (spot_of from.now) place.now start.now (map (option_map boxed_region) nodes.now)) result }
{
    if nodes.len() != walking.program.statements().len() {
        return Err(misfit(alloc, place, Step::Key(ObjectKey("nodes"))));
    }
    let list = place.within(alloc, Step::Key(ObjectKey("nodes")))?;
    all_regions_fit(alloc, walking, &list, nodes)?;
    let called = region_rows(walking, from.statement);
    list_fits(
        alloc,
        place,
        Step::Key(ObjectKey("start")),
        start.len(),
        called,
    )
}

/// Whether there are as many multipliers as show that two spots are the same: none where their statements differ.
fn has_same_count(program: &Program, from: &Spot, to: &Spot, found: usize) -> bool
    ensures { IsTrue result ↔ (found ≡ same_count (meaning program.now) (spot_of from.now) (spot_of to.now)) }
{
    if from.statement == to.statement {
        is_twice(found, loops_around(program, from.statement))
    } else {
        found == 0
    }
}

/// Whether what is said fits of what shows that a walk from one spot arrives at another, at this place.
pub fn reach_fits(
    alloc: Global,
    program: &Program,
    quasts: &Quasts,
    nest: &Nest,
    from: &Spot,
    to: &Spot,
    place: &Place,
    reach: &Reach,
) -> Result<(), Refused>
    ensures { Decides
        (fit_in (setting_of (meaning program.now) (trees_of quasts.now) nest.now (spot_of to.now) (reach_of reach.now)) (spot_of to.now) (spot_of from.now) place.now (reach_of reach.now)) result }
{
    match reach {
        Reach::Same(equal) => {
            if !has_same_count(program, from, to, equal.as_slice().len()) {
                return Err(misfit(alloc, place, Step::Key(ObjectKey("same"))));
            }
            Ok(())
        }
        Reach::Walked { start, nodes } => {
            let nodes = nodes.as_slice();
            let walking = Walking {
                program,
                quasts,
                nest,
                aim: Aim::Arrive { nodes, target: to },
                condition: 1,
            };
            walked_fits(alloc, &walking, from, place, start.as_slice(), nodes)
        }
    }
}
