//! A memory of several levels.

ghost use Rattle.std.specs.Prelude.{◌≡◌, ◌<◌, ◌≤◌, ◌+◌, ◌-◌, Some, None, length, false, true, not, find, slice_set, slice_index_or, if◌then◌else◌, IfOk, OnOk, IfErr, OnErr, IsTrue, ◌↔◌, MatchOption, ℕ, take, drop, option_to_list};
ghost use Rattle.std.specs.List.{AllByRecursion};
ghost use Rattle.iolb_model.specs.Game.{marked, mark_count, vertices, predecessors_at};
ghost use Rattle.iolb_model.specs.Tower.{IsFastLevel, IsTowerAllowed, first_tower_board, level_at, seen_move, stands_at_one, tower_board_after};
ghost use Rattle.memory_levels.specs.Towers.{AreCapacities, AreFinished, IsFinished, IsFirstUnfinished, IsTowerOf, bring_refusal, compute_refusal, has_level, is_fast, is_full, own_refusal, room_refusal, seen_drop, send_refusal, tower_refusal, vertex_of};
ghost use Rattle.iolb_model.specs.declared.limits.TheConstants.{LEVELS};

use crate::illegal::TowerIllegal;
use crate::level::Level;
use affine_form::Memory;
use iolb_model::game::Move;
use iolb_model::tower::TowerMove;
use pebble_game::Graph;
use std::alloc::{AllocError, Global};
use std::marker::Model;

/// A memory of fast levels that hold so many words each, the fastest first, over one slow level that has room for all: which
/// words stand at each level, and which vertices were computed. (Savage 1995, after Hong and Kung 1981.)
#[derive(Debug, Drop)]
pub struct Tower {
    capacities: Vec<u64>,
    levels: Vec<Level>,
    computed: Vec<bool>,
}

impl Model for Tower {
    ghost use Rattle.std.specs.Prelude.{◌≡◌, ◌+◌, length};
    ghost use Rattle.memory_levels.specs.Towers.{PlayedTower};

    ghost Value = { PlayedTower };

    ghost view = { λ tower. record { capacities = tower.capacities.items; board = record { levels = tower.levels.items; computed = tower.computed.items } } };

    ghost invariant = { λ tower. length tower.levels.items ≡ length tower.capacities.items + 1 };
}

impl Tower {
    /// A memory whose fast levels hold so many words, the fastest first, before the first move on a graph: the inputs stand at
    /// the slow level, and nothing else stands anywhere. Want of memory is its only error.
    pub fn new(alloc: Global, graph: &Graph, capacities: &[u64]) -> Result<Tower, Memory>
        requires { AreCapacities capacities.now }
        ensures first { IfOk result (λ made. made ≡ record { capacities = capacities.now; board = first_tower_board (length capacities.now) graph.now }) }
        ensures fits { IfOk result (λ made. IsTowerOf graph.now made.board) }
    {
        let vertices = graph.instances() + graph.inputs();
        Ok(Tower {
            capacities: Vec::from_slice(alloc, capacities)?,
            levels: first_levels(alloc, graph, capacities.len())?,
            computed: vec![in alloc; false; vertices as usize]?,
        })
    }

    /// Makes a move, where it is allowed. Otherwise the memory stays as it was, and the answer is the first of these that
    /// refuses it. First, there is no such vertex; then there is no such level, from 1 to the number of fast levels, and one
    /// more for a drop. Bring: the word isn't at the next slower level; it isn't here, and this level is full. Send: it isn't
    /// here; it isn't at the next slower level, and that is full. Compute: an input; computed before; a predecessor, the first,
    /// that isn't at level 1; level 1 is full. Drop: the word isn't here.
    pub fn apply(&mut self, graph: &Graph, step: TowerMove) -> Result<(), TowerIllegal>
        requires { IsTowerOf graph.now self.old.board }
        ensures ok { OnOk result (self.new ≡ record self.old { board = tower_board_after self.old.board step }) }
        ensures allowed { OnOk result (IsTowerAllowed graph.now self.old.capacities self.old.board step) }
        ensures none { OnOk result (tower_refusal graph.now self.old.capacities self.old.board step ≡ None) }
        ensures forbidden { OnErr result (¬ IsTowerAllowed graph.now self.old.capacities self.old.board step) }
        ensures refused { IfErr result (λ illegal. tower_refusal graph.now self.old.capacities self.old.board step ≡ Some illegal) }
        ensures err { OnErr result (self.new ≡ self.old) }
        ensures still_fits { IsTowerOf graph.now self.new.board }
    {
        match self.refusal(graph, step) {
            Some(illegal) => Err(illegal),
            None => {
                self.make(graph, step);
                Ok(())
            }
        }
    }

    /// What refuses a move, if anything does, by the order of `apply`.
    pub fn refusal(&self, graph: &Graph, step: TowerMove) -> Option<TowerIllegal>
        requires { IsTowerOf graph.now self.now.board }
        ensures { result ≡ tower_refusal graph.now self.now.capacities self.now.board step }
    {
        if graph.instances() + graph.inputs() <= vertex_of(step) {
            return Some(TowerIllegal::NoVertex);
        }
        if !self.has_level(step) {
            return Some(TowerIllegal::NoLevel);
        }
        match step {
            TowerMove::Bring(i, v) => self.bring_refusal(i, v),
            TowerMove::Send(i, v) => self.send_refusal(i, v),
            TowerMove::Compute(v) => self.compute_refusal(graph, v),
            TowerMove::Drop(i, v) if self.has(usize::from(i), v) => None,
            TowerMove::Drop(_, _) => Some(TowerIllegal::NotHere),
        }
    }

    /// Makes a move without asking whether it is allowed.
    pub fn make(&mut self, graph: &Graph, step: TowerMove)
        requires fits { IsTowerOf graph.now self.old.board }
        requires vertex { vertex_of step < vertices graph.now }
        requires level { has_level self.old.capacities step ≡ true }
        ensures made { self.new ≡ record self.old { board = tower_board_after self.old.board step } }
        ensures still_fits { IsTowerOf graph.now self.new.board }
    {
        match step {
            TowerMove::Bring(i, v) => self.levels[usize::from(i) - 1].put(v),
            TowerMove::Send(i, v) => self.levels[usize::from(i)].put(v),
            TowerMove::Compute(v) => {
                self.levels[0].put(v);
                self.computed[v as usize] = true;
            }
            TowerMove::Drop(i, v) => self.levels[usize::from(i) - 1].take(v),
        }
    }

    /// Makes a move that is allowed: what a boundary sees of it.
    pub(crate) fn step_seen(&mut self, graph: &Graph, step: TowerMove, boundary: u8) -> Option<Move>
        requires fits { IsTowerOf graph.now self.old.board }
        requires allowed { IsTowerAllowed graph.now self.old.capacities self.old.board step }
        requires there { IsFastLevel self.old.capacities boundary }
        ensures made { self.new ≡ record self.old { board = tower_board_after self.old.board step } }
        ensures still_fits { IsTowerOf graph.now self.new.board }
        ensures seen { option_to_list result ≡ seen_move boundary self.old.board step }
    {
        self.make(graph, step);
        match step {
            TowerMove::Bring(i, v) if i == boundary => Some(Move::Load(v)),
            TowerMove::Send(i, v) if i == boundary => Some(Move::Store(v)),
            TowerMove::Compute(v) => Some(Move::Compute(v)),
            TowerMove::Drop(i, v) => self.drop_seen(i <= boundary, v, usize::from(boundary)),
            _ => None,
        }
    }

    /// What a boundary sees of a drop on its side, once it was made.
    fn drop_seen(&self, up: bool, v: u32, boundary: usize) -> Option<Move>
        requires there { boundary ≤ length self.now.capacities }
        requires each { (level : ℕ) → 1 ≤ level → level ≤ length self.now.board.levels → v < length (level_at self.now.board level) }
        ensures { option_to_list result ≡ seen_drop up (take boundary self.now.board.levels) (drop boundary self.now.board.levels) v }
    {
        let (fast, slow) = self.levels.as_slice().split_at(boundary);
        if up {
            if stands_at_one(fast, v) {
                None
            } else {
                Some(Move::Drop(v))
            }
        } else if stands_at_one(slow, v) {
            None
        } else {
            Some(Move::Erase(v))
        }
    }

    /// The least instance that isn't computed, or is a last writer and isn't at the slow level.
    pub fn unfinished(&self, graph: &Graph) -> Option<u32>
        requires { IsTowerOf graph.now self.now.board }
        ensures { MatchOption result (AreFinished graph.now (length self.now.capacities) self.now.board) (λ v. IsFirstUnfinished graph.now (length self.now.capacities) self.now.board v) }
    {
        for v in 0..graph.instances() {
            if !self.is_finished(graph, v) {
                return Some(v);
            }
        }
        None
    }

    /// Whether an instance was computed, and stands at the slow level if it is a last writer.
    fn is_finished(&self, graph: &Graph, v: u32) -> bool
        requires fits { IsTowerOf graph.now self.now.board }
        requires there { v < graph.now.instances }
        ensures { IsTrue result ↔ IsFinished graph.now (length self.now.capacities) self.now.board v }
    {
        let slow = self.levels.len() - 1;
        self.computed[v as usize] && (!graph.is_last(v) || self.levels[slow].has(v))
    }

    /// Whether a move's level is there.
    fn has_level(&self, step: TowerMove) -> bool
        ensures has { result ≡ has_level self.now.capacities step }
        ensures many { length self.now.board.levels ≡ length self.now.capacities + 1 }
    {
        let fast = self.capacities.len();
        match step {
            TowerMove::Bring(i, _) | TowerMove::Send(i, _) => 1 <= i && usize::from(i) <= fast,
            TowerMove::Compute(_) => true,
            TowerMove::Drop(i, _) => 1 <= i && usize::from(i) <= fast + 1,
        }
    }

    /// Whether a word stands at a level.
    fn has(&self, level: usize, v: u32) -> bool
        requires some { 1 ≤ level }
        requires level { level ≤ length self.now.board.levels }
        requires there { v < length (level_at self.now.board level) }
        ensures { result ≡ marked (level_at self.now.board level) v }
    {
        self.levels[level - 1].has(v)
    }

    /// Whether a level is a fast one without room.
    fn is_full(&self, level: usize) -> bool
        requires some { 1 ≤ level }
        ensures { result ≡ is_full self.now.capacities self.now.board level }
    {
        let place = level - 1;
        place < self.capacities.len() && self.capacities[place] <= self.levels[place].count()
    }

    /// What refuses that a word comes to a level.
    fn room_refusal(&self, level: usize, v: u32) -> Option<TowerIllegal>
        requires some { 1 ≤ level }
        requires level { level ≤ length self.now.board.levels }
        requires there { v < length (level_at self.now.board level) }
        ensures { result ≡ room_refusal self.now.capacities self.now.board level v }
    {
        if !self.has(level, v) && self.is_full(level) {
            return Some(TowerIllegal::Full);
        }
        None
    }

    /// What refuses to bring a word to a level.
    fn bring_refusal(&self, i: u8, v: u32) -> Option<TowerIllegal>
        requires level { is_fast self.now.capacities i ≡ true }
        requires from { v < length (level_at self.now.board (i + 1)) }
        requires to { v < length (level_at self.now.board i) }
        ensures { result ≡ bring_refusal self.now.capacities self.now.board i v }
    {
        let level = usize::from(i);
        if !self.has(level + 1, v) {
            return Some(TowerIllegal::NotAbove);
        }
        self.room_refusal(level, v)
    }

    /// What refuses to send a word from a level.
    fn send_refusal(&self, i: u8, v: u32) -> Option<TowerIllegal>
        requires level { is_fast self.now.capacities i ≡ true }
        requires from { v < length (level_at self.now.board i) }
        requires to { v < length (level_at self.now.board (i + 1)) }
        ensures { result ≡ send_refusal self.now.capacities self.now.board i v }
    {
        let level = usize::from(i);
        if !self.has(level, v) {
            return Some(TowerIllegal::NotHere);
        }
        self.room_refusal(level + 1, v)
    }

    /// What refuses to compute a vertex.
    fn compute_refusal(&self, graph: &Graph, v: u32) -> Option<TowerIllegal>
        requires fits { IsTowerOf graph.now self.now.board }
        requires there { v < vertices graph.now }
        ensures { result ≡ compute_refusal graph.now self.now.capacities self.now.board v }
    {
        if graph.instances() <= v {
            return Some(TowerIllegal::InputVertex);
        }
        if self.computed[v as usize] {
            return Some(TowerIllegal::Computed);
        }
        match first_absent(&self.levels[0], graph.preds_of(v)) {
            Some(u) => Some(TowerIllegal::NeedsFirst(u)),
            None if self.is_full(1) => Some(TowerIllegal::Full),
            None => None,
        }
    }
}

/// So many empty levels, and behind them one where the inputs of a graph stand.
fn first_levels(alloc: Global, graph: &Graph, fast: usize) -> Result<Vec<Level>, AllocError>
    requires { fast ≤ LEVELS }
    ensures { IfOk result (λ levels. levels.items ≡ (first_tower_board fast graph.now).levels) }
{
    let vertices = graph.instances() + graph.inputs();
    let mut levels = Vec::with_capacity(alloc, fast + 1)?;
    for _ in 0..fast {
        levels.push(Level::new(alloc, vertices, 0)?)?;
    }
    levels.push(Level::new(alloc, graph.instances(), graph.inputs())?)?;
    Ok(levels)
}

/// Whether a word stands at one of some levels.
fn stands_at_one(levels: &[Level], v: u32) -> bool
    requires { AllByRecursion (λ marks. v < length marks) levels.now }
    ensures { result ≡ stands_at_one levels.now v }
{
    for level in levels {
        if level.has(v) {
            return true;
        }
    }
    false
}

/// The first of some vertices that isn't at a level.
fn first_absent(level: &Level, vertices: &[u32]) -> Option<u32>
    requires { AllByRecursion (λ u. u < length level.now) vertices.now }
    ensures { result ≡ find (λ u. not (marked level.now u)) vertices.now }
{
    for u in vertices {
        if !level.has(*u) {
            return Some(*u);
        }
    }
    None
}

/// The vertex of a move.
fn vertex_of(step: TowerMove) -> u32
    ensures { result ≡ vertex_of step }
{
    match step {
        TowerMove::Bring(_, v)
        | TowerMove::Send(_, v)
        | TowerMove::Compute(v)
        | TowerMove::Drop(_, v) => v,
    }
}
