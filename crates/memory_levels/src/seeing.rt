//! What a boundary sees of moves over levels of memory.

ghost use Rattle.std.specs.Prelude.{◌≡◌, ◌<◌, length, option_to_list, IfOk};
ghost use Rattle.std.specs.List.{AllByRecursion};
ghost use Rattle.iolb_model.specs.Tower.{IsFastLevel, first_tower_board, seen_moves, stands_at_one};
ghost use Rattle.memory_levels.specs.Climbs.{AreLegal};
ghost use Rattle.memory_levels.specs.Towers.{AreCapacities};

use crate::tower::Tower;
use affine_form::Memory;
use iolb_model::game::Move;
use iolb_model::tower::TowerMove;
use pebble_game::Graph;
use std::alloc::Global;

/// The moves of the game of one fast memory that a boundary sees in moves over levels, which are allowed: a word is red where
/// it stands at a level up to the boundary, and blue where it stands at one behind it. Want of memory is its only error.
pub fn seen(
    alloc: Global,
    graph: &Graph,
    capacities: &[u64],
    moves: &[TowerMove],
    boundary: u8,
) -> Result<Vec<Move>, Memory>
    requires held { AreCapacities capacities.now }
    requires legal { AreLegal graph.now capacities.now moves.now }
    requires there { IsFastLevel capacities.now boundary }
    ensures { IfOk result (λ seen. seen.items ≡ seen_moves boundary (first_tower_board (length capacities.now) graph.now) moves.now) }
{
    let mut tower = Tower::new(alloc, graph, capacities)?;
    let mut seen = Vec::new(alloc);
    for step in moves {
        if let Some(step) = tower.step_seen(graph, *step, boundary) {
            seen.push(step)?;
        }
    }
    Ok(seen)
}
