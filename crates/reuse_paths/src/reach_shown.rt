//! The check of reaches.
#![tactic(auto, using(claims::proofs::Found::in_a_row))]

ghost use Rattle.std.specs.Prelude.{◌≡◌, ◌*◌, ◌++◌, ◌∷◌, [], ℕ, length, map, option_map, OnOk, IfErr, codes};
ghost use Rattle.affine_program.specs.Domain.{depth_of};
ghost use Rattle.affine_program.specs.Parts.{meaning};
ghost use Rattle.claims.specs.Claims.{AllHold, Decides, IsRefusal, numbered};
ghost use Rattle.claims.specs.declared.place.Step.TheVariants.{Key};
ghost use Rattle.reuse_paths.specs.Arrival.{Arrives};
ghost use Rattle.dep_quast.specs.Quasts.{trees_of};
ghost use Rattle.reuse_paths.specs.ReachClaims.{reach_claims, region_claims, same_claims, start_claims};
ghost use Rattle.reuse_paths.specs.ReachFits.{ReachFits};
ghost use Rattle.dep_quast.specs.Trees.{RowsAreTrue, RowsFit};
ghost use Rattle.reuse_paths.specs.WalkFits.{NestFits, ReaderFits, RegionsFit, SpotFits};
ghost use Rattle.reuse_paths.specs.Walks.{reach_of, boxed_region, spot_of};
ghost use Rattle.reuse_paths.specs.WalkSettings.{entering_rows, region_at, spot_variables};
ghost use Rattle.reuse_paths.specs.WalkViews.{walk_of, SettingFits};

use crate::law::reaches_arrive;
use crate::region::{equality_rows, forms_behind};
use crate::walk_shown::regions_shown;
use crate::walking::{Aim, Walking, region_at, spot_variables};
use crate::{Quasts, Reach, Region, Spot};
use affine_form::Multipliers;
use affine_program::Program;
use claims::shown::goals_shown;
use claims::{ObjectKey, Place, Refused, Step, refusal};
use domain_count::{Nest, rows_before};
use std::alloc::Global;

/// Whether a spot is shown to be the target.
fn same_shown(
    alloc: Global,
    walking: &Walking,
    target: &Spot,
    place: &Place,
    from: &Spot,
    equal: &[Multipliers],
) -> Result<(), Refused>
    requires nest { NestFits (walk_of walking.now).program (walk_of walking.now).nest }
    requires target_fits { SpotFits (walk_of walking.now).program (spot_variables (walk_of walking.now)) (spot_of target.now) }
    requires from_fits { SpotFits (walk_of walking.now).program (spot_variables (walk_of walking.now)) (spot_of from.now) }
    requires enough { from.now.statement ≡ target.now.statement → length equal.now ≡ 2 * depth_of (walk_of walking.now).program from.now.statement }
    ensures { Decides (same_claims walking.now.condition (walk_of walking.now) (spot_of target.now) place.now (spot_of from.now) equal.now) result }
{
    let list = place.within(alloc, Step::Key(ObjectKey("same")))?;
    if from.statement != target.statement {
        return Err(refusal(alloc, walking.condition, &list));
    }
    let vars = spot_variables(walking);
    let system = rows_before(alloc, walking.program, walking.nest.bounds())?;
    let goals = equality_rows(alloc, vars, from.point.as_slice(), target.point.as_slice())?;
    goals_shown(
        alloc,
        walking.condition,
        &list,
        &system,
        goals.as_slice(),
        equal,
    )?;
    Ok(())
}

/// Whether a spot is shown to be in its statement's region.
fn start_shown(
    alloc: Global,
    walking: &Walking,
    place: &Place,
    from: &Spot,
    start: &[Multipliers],
) -> Result<(), Refused>
    requires fits { SettingFits (walk_of walking.now) }
    requires from_fits { SpotFits (walk_of walking.now).program (spot_variables (walk_of walking.now)) (spot_of from.now) }
    requires enough { length start.now ≡ length (entering_rows (walk_of walking.now) (spot_variables (walk_of walking.now)) (region_at (walk_of walking.now).nodes from.now.statement) (spot_of from.now).point) }
    ensures { Decides (start_claims walking.now.condition (walk_of walking.now) place.now (spot_of from.now) start.now) result }
{
    let list = place.within(alloc, Step::Key(ObjectKey("start")))?;
    let Some(region) = region_at(walking, from.statement) else {
        return Err(refusal(alloc, walking.condition, &list));
    };
    let vars = spot_variables(walking);
    let system = rows_before(alloc, walking.program, walking.nest.bounds())?;
    let values = from.point.as_slice();
    let goals = forms_behind(alloc, walking, vars, values, region.rows.as_slice())?;
    goals_shown(
        alloc,
        walking.condition,
        &list,
        &system,
        goals.as_slice(),
        start,
    )?;
    Ok(())
}

/// Whether what a walk from a spot through these regions claims is shown.
fn walked_shown(
    alloc: Global,
    walking: &Walking,
    place: &Place,
    from: &Spot,
    start: &[Multipliers],
    nodes: &[Option<Box<Region>>],
) -> Result<(), Refused>
    requires fits { SettingFits (walk_of walking.now) }
    requires readers { (statement : ℕ) → ReaderFits (walk_of walking.now) statement (walk_of walking.now).aim }
    requires from_fits { SpotFits (walk_of walking.now).program (spot_variables (walk_of walking.now)) (spot_of from.now) }
    requires enough { length start.now ≡ length (entering_rows (walk_of walking.now) (spot_variables (walk_of walking.now)) (region_at (walk_of walking.now).nodes from.now.statement) (spot_of from.now).point) }
    requires each { length nodes.now ≡ length (walk_of walking.now).program.statements }
    requires regions_fit { RegionsFit (walk_of walking.now) 0 (map (option_map boxed_region) nodes.now) }
    ensures { Decides (start_claims walking.now.condition (walk_of walking.now) place.now (spot_of from.now) start.now
        ++ numbered (region_claims walking.now.condition (walk_of walking.now) (place.now ++ Key (codes "nodes") ∷ [])) 0 (map (option_map boxed_region) nodes.now)) result }
{
    start_shown(alloc, walking, place, from, start)?;
    let list = place.within(alloc, Step::Key(ObjectKey("nodes")))?;
    regions_shown(alloc, walking, &list, nodes)?;
    Ok(())
}

/// Whether what a reach claims is shown.
fn reach_shown<'a>(
    alloc: Global,
    program: &'a Program,
    quasts: &'a Quasts,
    nest: &'a Nest,
    from: &Spot,
    to: &'a Spot,
    reach: &'a Reach,
    condition: u8,
    place: &Place,
) -> Result<(), Refused>
    requires trees_fit { RowsFit (meaning program.now) 0 (trees_of quasts.now) }
    requires fits { ReachFits (meaning program.now) (trees_of quasts.now) nest.now (spot_of from.now) (spot_of to.now) (reach_of reach.now) }
    ensures { Decides (reach_claims (meaning program.now) (trees_of quasts.now) nest.now (spot_of from.now) (spot_of to.now) (reach_of reach.now) condition place.now) result }
{
    match reach {
        Reach::Same(equal) => {
            let walking = Walking {
                program,
                quasts,
                nest,
                aim: Aim::Arrive {
                    nodes: &[],
                    target: to,
                },
                condition,
            };
            same_shown(alloc, &walking, to, place, from, equal.as_slice())
        }
        Reach::Walked { start, nodes } => {
            let nodes = nodes.as_slice();
            let walking = Walking {
                program,
                quasts,
                nest,
                aim: Aim::Arrive { nodes, target: to },
                condition,
            };
            walked_shown(alloc, &walking, place, from, start.as_slice(), nodes)
        }
    }
}

/// Checks that a walk back from the spot `from` arrives at the spot `to`, by a reach that stands at this place of a
/// certificate. The spots are over the parameters and the nest's variables; the source trees, the nest, the spots and the
/// reach fit the program, and the trees are true.
///
/// After `Ok`, at all admitted parameter values, of any size, and at each point of the nest at which `from` is an instance
/// of the execution, `to` is that instance or is reached from it by going from vertex to predecessor (paths of
/// dependences, Feautrier 1991).
///
/// # Errors
///
/// The first claim that doesn't hold. Where the spots are to be the same, `condition` at `same` for spots of two statements
/// and at `same/i` for the first equality that isn't shown. Else `condition` at `start` where the starting statement has no
/// region, and at `start/i` for its first row that isn't shown at the spot; then region by region, at
/// `nodes/statement/tree`, behind `yes` and `no`, and there at `leaves/i` for the first leaf that isn't empty and is neither
/// shown to have no point (`empty`), nor named by the target's statement and shown to be the target (`arrive/i`), nor in
/// the region of a statement that has one (`rows/i`); 2 for a system of more than 128 rows, at the leaf's first multipliers,
/// or at the leaf.
pub fn check_reach(
    alloc: Global,
    program: &Program,
    quasts: &Quasts,
    nest: &Nest,
    from: &Spot,
    to: &Spot,
    reach: &Reach,
    condition: u8,
    place: &Place,
) -> Result<(), Refused>
    requires trees_fit { RowsFit (meaning program.now) 0 (trees_of quasts.now) }
    requires trees_are_true { RowsAreTrue (meaning program.now) 0 (trees_of quasts.now) }
    requires fits { ReachFits (meaning program.now) (trees_of quasts.now) nest.now (spot_of from.now) (spot_of to.now) (reach_of reach.now) }
    ensures hold { OnOk result (AllHold (reach_claims (meaning program.now) (trees_of quasts.now) nest.now (spot_of from.now) (spot_of to.now) (reach_of reach.now) condition place.now)) }
    ensures arrives { OnOk result (Arrives (meaning program.now) nest.now (spot_of from.now) (spot_of to.now)) }
    ensures refused { IfErr result (λ refused. IsRefusal (reach_claims (meaning program.now) (trees_of quasts.now) nest.now (spot_of from.now) (spot_of to.now) (reach_of reach.now) condition place.now) refused) }
{
    let _params = program.params();
    reaches_arrive();
    reach_shown(
        alloc, program, quasts, nest, from, to, reach, condition, place,
    )
}
