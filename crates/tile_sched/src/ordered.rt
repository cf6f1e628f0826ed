//! The order of a schedule.

ghost use Rattle.std.specs.Prelude.{◌≡◌, ◌↔◌, ◌<◌, ◌≤◌, ◌^◌, length, map, IsTrue, IfOk};
ghost use Rattle.std.specs.List.{AllByRecursion, enumerate_from, range_with_len};
ghost use Rattle.iolb_model.specs.Graph.{computation_graph};
ghost use Rattle.affine_form.specs.Form.{IsSmall};
ghost use Rattle.affine_program.specs.Parts.{meaning};
ghost use Rattle.pebble_replay.specs.Order.{HoldsEachOnce};
ghost use Rattle.loop_graph.specs.Turns.{turns};
ghost use Rattle.tile_sched.specs.Schedules.{IsKey, IsSchedule};
ghost use Rattle.tile_sched.specs.Order.{floor as rounded_down, said_by, said, IsOrder};
ghost use Rattle.tile_sched.specs.Ranks.{rank_of, said_of_run, CanSay, SaysNothing};
ghost use Rattle.iolb_model.specs.declared.limits.TheConstants.{VALUE_SIZE};

use crate::schedule::{Key, Schedule};
use affine_form::Memory;
use affine_program::Program;
use loop_graph::{Run, runs, values_of};
use pebble_game::Graph;
use std::alloc::Global;

/// A number over a divisor, rounded down.
fn floor(number: i128, divisor: u32) -> i128
    requires { 1 ≤ divisor }
    ensures { result ≡ rounded_down number divisor }
{
    number.div_euclid(i128::from(divisor))
}

/// What keys say at a point.
fn said_at(alloc: Global, keys: &[Key], point: &[i128]) -> Result<Vec<i128>, Memory>
    requires keys { AllByRecursion (IsKey (length point.now)) keys.now }
    requires point { AllByRecursion (IsSmall VALUE_SIZE) point.now }
    ensures { IfOk result (λ said. said.items ≡ said_by keys.now point.now) }
{
    let mut said = Vec::new(alloc);
    for key in keys {
        said.push(floor(key.form.value(point), key.divisor))?;
    }
    Ok(said)
}

/// What a schedule says of each run, with the run's number.
fn ranks(alloc: Global, runs: &[Run], schedule: &Schedule) -> Result<Vec<(Vec<i128>, u32)>, Memory>
    requires few { length runs.now < 2 ^ 32 }
    requires each { AllByRecursion (CanSay schedule.now) runs.now }
    ensures { IfOk result (λ ranks. map rank_of ranks.items ≡ enumerate_from 0 (map (said_of_run schedule.now) runs.now)) }
{
    let mut ranks = Vec::new(alloc);
    for (i, run) in runs.iter().enumerate() {
        let keys = schedule.keys()[usize::from(run.statement)].as_slice();
        let said = said_at(alloc, keys, run.point.as_slice())?;
        ranks.push((said, i as u32))?;
    }
    Ok(ranks)
}

/// The numbers of runs.
fn numbers(alloc: Global, ranks: &[(Vec<i128>, u32)]) -> Result<Vec<u32>, Memory>
    ensures { IfOk result (λ numbers. numbers.items ≡ map (λ rank. rank.1) ranks.now) }
{
    let mut numbers = Vec::new(alloc);
    for rank in ranks {
        numbers.push(rank.1)?;
    }
    Ok(numbers)
}

/// Whether a schedule says nothing of any instance.
fn says_nothing(schedule: &Schedule) -> bool
    ensures { IsTrue result ↔ SaysNothing schedule.now }
{
    for keys in schedule.keys() {
        if !keys.as_slice().is_empty() {
            return false;
        }
    }
    true
}

/// The numbers of so many instances, in the order of execution.
fn counted(alloc: Global, instances: u32) -> Result<Vec<u32>, Memory>
    ensures { IfOk result (λ numbers. numbers.items ≡ range_with_len 0 instances) }
{
    let mut numbers = Vec::with_capacity(alloc, instances as usize)?;
    for i in 0..instances {
        numbers.push(i)?;
    }
    Ok(numbers)
}

/// The order of a schedule: the instances by what the keys of their statements say, then by their numbers. Where it says
/// nothing, they stay as they are.
pub fn order(
    alloc: Global,
    program: &Program,
    sizes: &[i64],
    graph: &Graph,
    schedule: &Schedule,
) -> Result<Vec<u32>, Memory>
    requires sizes { length sizes.now ≡ length program.now.params }
    requires small { AllByRecursion (IsSmall VALUE_SIZE) sizes.now }
    requires graph { graph.now ≡ computation_graph (meaning program.now) sizes.now }
    requires turns { AllByRecursion (IsSmall VALUE_SIZE) (turns (meaning program.now) sizes.now) }
    requires schedule { IsSchedule (meaning program.now) schedule.now }
    ensures order { IfOk result (λ order. IsOrder (said (meaning program.now) sizes.now schedule.now) order.items) }
    ensures each { IfOk result (λ order. HoldsEachOnce graph.now order.items) }
{
    let instances = graph.instances();
    if says_nothing(schedule) {
        return counted(alloc, instances);
    }
    let values = values_of(alloc, sizes)?;
    let runs = runs(alloc, program, values.as_slice())?;
    let mut ranks = ranks(alloc, runs.as_slice(), schedule)?;
    ranks.sort()?;
    numbers(alloc, ranks.as_slice())
}
