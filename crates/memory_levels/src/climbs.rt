//! Plays of moves over levels of memory.

ghost use Rattle.std.specs.Prelude.{◌≡◌, ◌≢◌, ℕ, ◌+◌, ◌<◌, ◌++◌, MatchOption, ◌^◌, ◌∷◌, [], List, length, IfOk, IfErr};
ghost use Rattle.iolb_model.specs.Tower.{tower_left};
ghost use Rattle.iolb_model.specs.declared.tower.TowerMove.{TowerMove as ModelMove};
ghost use Rattle.memory_levels.specs.Climbs.{AreCrossings, AreLegal, Climbs, IsPlayFault, crossings};
ghost use Rattle.memory_levels.specs.Towers.{AreCapacities, IsTowerOf};

use crate::illegal::TowerIllegal;
use crate::tower::Tower;
use affine_form::Memory;
use iolb_model::tower::TowerMove;
use pebble_game::Graph;
use std::alloc::{AllocError, Global};

/// How many words cross a boundary between two levels of memory.
#[derive(Clone, Copy, Debug, PartialEq, Eq)]
pub struct Crossed {
    /// Words that are brought to the faster level.
    pub brings: u64,
    /// Words that are sent to the slower one.
    pub sends: u64,
}

/// Why moves are no complete play.
#[derive(Clone, Copy, Debug, PartialEq, Eq)]
pub enum ClimbFault {
    /// The move of this number, counted from 1, is the first that isn't allowed, and this refuses it.
    Illegal(u64, TowerIllegal),
    /// All moves are allowed, and this is the least instance that isn't computed, or is a last writer and isn't at the slow level.
    NotComplete(u32),
    /// There was no memory for the play.
    Memory,
}

impl From<Memory> for ClimbFault {
    ghost use Rattle.memory_levels.specs.declared.climbs.ClimbFault.{ClimbFault};
    ghost use Rattle.std.specs.Prelude.{◌≡◌};

    ghost from_gives = { λ _ e. e ≡ ClimbFault.Memory };

    fn from(_error: Memory) -> ClimbFault {
        ClimbFault::Memory
    }
}

/// Plays moves on a graph over fast levels that hold so many words each, the fastest first, and counts the words that cross each
/// boundary, the fastest first. (Savage 1995, after Hong and Kung 1981.)
///
/// # Errors
///
/// `Illegal` names the first move that isn't allowed, `NotComplete` the least instance that isn't finished where all are.
pub fn climb(
    alloc: Global,
    graph: &Graph,
    capacities: &[u64],
    moves: &[TowerMove],
) -> Result<Vec<Crossed>, ClimbFault>
    requires { AreCapacities capacities.now }
    ensures { Climbs graph.now capacities.now moves.now result }
{
    let tower = tower_after(alloc, graph, capacities, moves)?;
    if let Some(v) = tower.unfinished(graph) {
        return Err(ClimbFault::NotComplete(v));
    }
    match crossings(alloc, capacities.len(), moves) {
        Ok(crossed) => Ok(crossed),
        Err(_) => Err(ClimbFault::Memory),
    }
}

/// The board that moves leave.
fn tower_after(
    alloc: Global,
    graph: &Graph,
    capacities: &[u64],
    moves: &[TowerMove],
) -> Result<Tower, ClimbFault>
    requires { AreCapacities capacities.now }
    ensures legal { IfOk result (λ _. AreLegal graph.now capacities.now moves.now) }
    ensures left { IfOk result (λ tower. tower ≡ record { capacities = capacities.now; board = tower_left graph.now capacities.now moves.now }) }
    ensures fits { IfOk result (λ tower. IsTowerOf graph.now tower.board) }
    ensures refused { IfErr result (IsPlayFault graph.now capacities.now moves.now) }
{
    let mut tower = Tower::new(alloc, graph, capacities)?;
    for (index, step) in moves.iter().enumerate() {
        match tower.apply(graph, *step) {
            Ok(()) => {}
            Err(illegal) => return Err(ClimbFault::Illegal(index as u64 + 1, illegal)),
        }
    }
    Ok(tower)
}

/// How many words moves carry over each boundary.
fn crossings(alloc: Global, fast: usize, moves: &[TowerMove]) -> Result<Vec<Crossed>, AllocError>
    ensures { IfOk result (λ crossed. crossed.items ≡ crossings fast moves.now) }
{
    let none = Crossed {
        brings: 0,
        sends: 0,
    };
    let mut crossed = vec![in alloc; none; fast]?;
    for step in moves {
        count_move(crossed.as_mut_slice(), *step);
    }
    Ok(crossed)
}

/// Counts a move at the boundary that it carries a word over, if it is one of these.
fn count_move(crossed: &mut [Crossed], step: TowerMove)
    requires room { (steps : List ModelMove) × (length steps < 2 ^ 63) × AreCrossings crossed.old steps }
    ensures counted { (steps : List ModelMove) → AreCrossings crossed.old steps → AreCrossings crossed.new (steps ++ step ∷ []) }
    ensures length { length crossed.new ≡ length crossed.old }
{
    match step {
        TowerMove::Bring(i, _) => {
            if let Some(place) = boundary_place(i, crossed.len()) {
                crossed[place].brings += 1;
            }
        }
        TowerMove::Send(i, _) => {
            if let Some(place) = boundary_place(i, crossed.len()) {
                crossed[place].sends += 1;
            }
        }
        TowerMove::Compute(_) | TowerMove::Drop(_, _) => {}
    }
}

/// The place of a boundary among those below so many fast levels, if it is one of them.
fn boundary_place(boundary: u8, fast: usize) -> Option<usize>
    ensures { MatchOption result ((place : ℕ) → place < fast → boundary ≢ place + 1) (λ place. (place < fast) × (boundary ≡ place + 1)) }
{
    let place = usize::from(boundary).checked_sub(1)?;
    if place < fast { Some(place) } else { None }
}
