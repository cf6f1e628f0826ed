//! Boards of the red-blue pebble game.

ghost use Rattle.std.specs.Prelude.{if◌then◌else◌, ◌≡◌, ◌<◌, ◌≤◌, Some, None, length, false, true, not, find, slice_set, IfOk, OnOk, IfErr, OnErr};
ghost use Rattle.std.specs.List.{AllByRecursion};
ghost use Rattle.iolb_model.specs.Game.{marked, mark_count, vertices, predecessors_at, first_board, board_after, IsAllowed};
ghost use Rattle.iolb_model.specs.declared.game.Move.TheVariants.{Load, Store, Compute, Drop, Erase};
ghost use Rattle.pebble_game.specs.Boards.{IsBoardOf, moved, is_full, load_refusal, compute_refusal, refusal};

use crate::graph::Graph;
use crate::illegal::Illegal;
use affine_form::Memory;
use iolb_model::game::Move;
use std::alloc::Global;
use std::marker::Model;

/// A board of the red-blue pebble game with so many red pebbles, at least one: which vertices have a red pebble, which have
/// a blue one, and which were computed. (Hong and Kung 1981.)
#[derive(Debug, Drop)]
pub struct Board {
    s: u64,
    reds: u64,
    red: Vec<bool>,
    blue: Vec<bool>,
    computed: Vec<bool>,
}

impl Model for Board {
    ghost use Rattle.std.specs.Prelude.{◌≡◌};
    ghost use Rattle.std.specs.List.{AllByRecursion};
    ghost use Rattle.iolb_model.specs.Game.{mark_count};
    ghost use Rattle.pebble_game.specs.Boards.{PlayedBoard};

    ghost Value = { PlayedBoard };

    ghost view = { λ board. record { s = board.s; board = record { red = board.red.items; blue = board.blue.items; computed = board.computed.items } } };

    ghost invariant = { λ board. board.reds ≡ mark_count board.red.items };
}

impl Board {
    /// The first board of a graph, with `s` red pebbles: each input has a blue pebble, and nothing else has any. Want of
    /// memory is its only error.
    pub fn new(alloc: Global, graph: &Graph, s: u64) -> Result<Board, Memory>
        requires { 1 ≤ s }
        ensures first { IfOk result (λ made. made ≡ record { s = s; board = first_board graph.now }) }
        ensures fits { IfOk result (λ made. IsBoardOf graph.now made.board) }
    {
        let instances = graph.instances() as usize;
        let vertices = instances + graph.inputs() as usize;
        let mut blue = vec![in alloc; false; instances]?;
        blue.resize(vertices, true)?;
        Ok(Board {
            s,
            reds: 0,
            red: vec![in alloc; false; vertices]?,
            blue,
            computed: vec![in alloc; false; vertices]?,
        })
    }

    /// Makes a move, where it is allowed. Otherwise the board stays as it was, and the answer is the first of these that
    /// refuses it. Load: no blue pebble; no red one on the vertex, and all in use. Store and drop: no red pebble. Compute: an
    /// input; computed before; a predecessor, the first, without a red pebble; all red pebbles in use. Erase: no blue pebble.
    pub fn apply(&mut self, graph: &Graph, step: Move) -> Result<(), Illegal>
        requires fits { IsBoardOf graph.now self.old.board }
        requires there { moved step < vertices graph.now }
        ensures ok { OnOk result (self.new ≡ record self.old { board = board_after self.old.board step }) }
        ensures allowed { OnOk result (IsAllowed graph.now self.old.s self.old.board step) }
        ensures none { OnOk result (refusal graph.now self.old.s self.old.board step ≡ None) }
        ensures forbidden { OnErr result (¬ IsAllowed graph.now self.old.s self.old.board step) }
        ensures refused { IfErr result (λ illegal. refusal graph.now self.old.s self.old.board step ≡ Some illegal) }
        ensures err { OnErr result (self.new ≡ self.old) }
        ensures still_fits { IsBoardOf graph.now self.new.board }
    {
        match self.refusal(graph, step) {
            Some(illegal) => Err(illegal),
            None => {
                self.make(step);
                Ok(())
            }
        }
    }

    /// What refuses a move, if anything does, by the order of `apply`.
    pub fn refusal(&self, graph: &Graph, step: Move) -> Option<Illegal>
        requires fits { IsBoardOf graph.now self.now.board }
        requires there { moved step < vertices graph.now }
        ensures { result ≡ refusal graph.now self.now.s self.now.board step }
    {
        match step {
            Move::Load(v) => self.load_refusal(v),
            Move::Store(v) | Move::Drop(v) => refused_unless(self.is_red(v), Illegal::NoRed),
            Move::Compute(v) => self.compute_refusal(graph, v),
            Move::Erase(v) => refused_unless(self.is_blue(v), Illegal::NoBlue),
        }
    }

    /// Makes a move without asking whether it is allowed.
    pub fn make(&mut self, step: Move)
        requires red { moved step < length self.old.board.red }
        requires blue { moved step < length self.old.board.blue }
        requires computed { moved step < length self.old.board.computed }
        ensures { self.new ≡ record self.old { board = board_after self.old.board step } }
    {
        match step {
            Move::Load(v) => self.put_red(v),
            Move::Store(v) => self.blue[v as usize] = true,
            Move::Compute(v) => {
                self.put_red(v);
                self.computed[v as usize] = true;
            }
            Move::Drop(v) => self.take_red(v),
            Move::Erase(v) => self.blue[v as usize] = false,
        }
    }

    /// Whether a vertex has a red pebble.
    pub fn is_red(&self, v: u32) -> bool
        requires { v < length self.now.board.red }
        ensures { result ≡ marked self.now.board.red v }
    {
        is_marked(self.red.as_slice(), v)
    }

    /// Whether a vertex has a blue pebble.
    pub fn is_blue(&self, v: u32) -> bool
        requires { v < length self.now.board.blue }
        ensures { result ≡ marked self.now.board.blue v }
    {
        is_marked(self.blue.as_slice(), v)
    }

    /// Whether all red pebbles are in use.
    pub fn is_full(&self) -> bool
        ensures { result ≡ is_full self.now.s self.now.board }
    {
        self.s <= self.reds
    }

    /// What refuses a load.
    fn load_refusal(&self, v: u32) -> Option<Illegal>
        requires red { v < length self.now.board.red }
        requires blue { v < length self.now.board.blue }
        ensures { result ≡ load_refusal self.now.s self.now.board v }
    {
        if !self.is_blue(v) {
            return Some(Illegal::NoBlue);
        }
        if !self.is_red(v) && self.is_full() {
            return Some(Illegal::Full);
        }
        None
    }

    /// What refuses to compute a vertex.
    fn compute_refusal(&self, graph: &Graph, v: u32) -> Option<Illegal>
        requires fits { IsBoardOf graph.now self.now.board }
        requires there { v < vertices graph.now }
        ensures { result ≡ compute_refusal graph.now self.now.s self.now.board v }
    {
        if graph.instances() <= v {
            return Some(Illegal::InputVertex);
        }
        if is_marked(self.computed.as_slice(), v) {
            return Some(Illegal::Computed);
        }
        match first_unmarked(self.red.as_slice(), graph.preds_of(v)) {
            Some(u) => Some(Illegal::NeedsRed(u)),
            None if self.is_full() => Some(Illegal::Full),
            None => None,
        }
    }

    /// Puts a red pebble on a vertex, if it has none.
    fn put_red(&mut self, v: u32)
        requires { v < length self.old.board.red }
        ensures { self.new ≡ record self.old { board = record self.old.board { red = slice_set self.old.board.red v true } } }
    {
        if !is_marked(self.red.as_slice(), v) {
            self.red[v as usize] = true;
            self.reds += 1;
        }
    }

    /// Takes the red pebble off a vertex, if it has one.
    fn take_red(&mut self, v: u32)
        requires { v < length self.old.board.red }
        ensures { self.new ≡ record self.old { board = record self.old.board { red = slice_set self.old.board.red v false } } }
    {
        if is_marked(self.red.as_slice(), v) {
            self.red[v as usize] = false;
            self.reds -= 1;
        }
    }
}

/// A refusal, unless the vertex is as the move needs it.
fn refused_unless(met: bool, illegal: Illegal) -> Option<Illegal>
    ensures { result ≡ (if met then None else Some illegal) }
{
    if met { None } else { Some(illegal) }
}

/// Whether a vertex has the mark.
fn is_marked(marks: &[bool], v: u32) -> bool
    requires { v < length marks.now }
    ensures { result ≡ marked marks.now v }
{
    marks[v as usize]
}

/// The first of some vertices that hasn't the mark.
fn first_unmarked(marks: &[bool], vertices: &[u32]) -> Option<u32>
    requires { AllByRecursion (λ u. u < length marks.now) vertices.now }
    ensures { result ≡ find (λ u. not (marked marks.now u)) vertices.now }
{
    for u in vertices {
        if !is_marked(marks, *u) {
            return Some(*u);
        }
    }
    None
}
