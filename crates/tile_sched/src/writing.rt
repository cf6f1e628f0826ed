//! Writing a play.

ghost use Rattle.std.specs.Prelude.{◌≡◌, ◌++◌, length, IfOk, OnOk, OnErr};
ghost use Rattle.iolb_host.specs.Sink.{AppendsPiece, AppendsPart, after_write};
ghost use Rattle.pebble_replay.specs.Played.{played};
ghost use Rattle.pebble_replay.specs.Player.{StandsFor, pebbles_of, place_of, totals_of};
ghost use Rattle.tile_sched.specs.Lines.{move_line, moves_text, number_line, play_text, totals_text};
ghost use Rattle.tile_sched.specs.Plays.{IsAtStart};

use crate::lines::set_line;
use iolb_host::{Sink, SinkFault};
use iolb_model::game::Move;
use pebble_game::{Graph, Memory};
use pebble_replay::Player;
use std::alloc::Global;

/// Writes words and a number on a line.
fn put_number<O: Sink>(
    line: &mut Vec<u8>,
    words: &[u8],
    number: u64,
    out: &mut O,
) -> Result<(), SinkFault>
    ensures faults { O.faults out.new ≡ after_write (O.faults out.old) result }
    ensures wants { OnOk result (O.wants out.new ≡ O.wants out.old) }
    ensures ok { OnOk result (AppendsPiece (O.written out.old) (O.written out.new) (number_line words.now number)) }
    ensures err { OnErr result (AppendsPart (O.written out.old) (O.written out.new) (number_line words.now number)) }
{
    set_line(line, words, number)?;
    out.put(line.as_slice())
}

/// Writes a move on a line.
fn put_move<O: Sink>(line: &mut Vec<u8>, step: Move, out: &mut O) -> Result<(), SinkFault>
    ensures faults { O.faults out.new ≡ after_write (O.faults out.old) result }
    ensures wants { OnOk result (O.wants out.new ≡ O.wants out.old) }
    ensures ok { OnOk result (AppendsPiece (O.written out.old) (O.written out.new) (move_line step)) }
    ensures err { OnErr result (AppendsPart (O.written out.old) (O.written out.new) (move_line step)) }
{
    match step {
        Move::Load(v) => put_number(line, b"load ", u64::from(v), out),
        Move::Store(v) => put_number(line, b"store ", u64::from(v), out),
        Move::Compute(v) => put_number(line, b"compute ", u64::from(v), out),
        Move::Drop(v) => put_number(line, b"drop ", u64::from(v), out),
        Move::Erase(v) => put_number(line, b"erase ", u64::from(v), out),
    }
}

/// Writes a line for each of some moves.
fn put_moves<O: Sink>(line: &mut Vec<u8>, moves: &[Move], out: &mut O) -> Result<(), SinkFault>
    ensures faults { O.faults out.new ≡ after_write (O.faults out.old) result }
    ensures wants { OnOk result (O.wants out.new ≡ O.wants out.old) }
    ensures ok { OnOk result (AppendsPiece (O.written out.old) (O.written out.new) (moves_text moves.now)) }
    ensures err { OnErr result (AppendsPart (O.written out.old) (O.written out.new) (moves_text moves.now)) }
{
    for step in moves {
        put_move(line, *step, out)?;
    }
    Ok(())
}

/// Writes totals, each on a line.
fn put_totals<O: Sink>(
    line: &mut Vec<u8>,
    totals: (u64, u64, u64),
    out: &mut O,
) -> Result<(), SinkFault>
    ensures faults { O.faults out.new ≡ after_write (O.faults out.old) result }
    ensures wants { OnOk result (O.wants out.new ≡ O.wants out.old) }
    ensures ok { OnOk result (AppendsPiece (O.written out.old) (O.written out.new) (totals_text totals.0 totals.1 totals.2)) }
    ensures err { OnErr result (AppendsPart (O.written out.old) (O.written out.new) (totals_text totals.0 totals.1 totals.2)) }
{
    put_number(line, b"loads ", totals.0, out)?;
    put_number(line, b"stores ", totals.1, out)?;
    put_number(line, b"computes ", totals.2, out)
}

/// Writes the moves of a player that stands before the first instance of an order, those of an instance before the next
/// ones are made: how many load, store and compute.
fn put_steps<O: Sink>(
    alloc: Global,
    graph: &Graph,
    order: &[u32],
    mut player: Player,
    line: &mut Vec<u8>,
    out: &mut O,
) -> Result<(u64, u64, u64), SinkFault>
    requires { IsAtStart graph.now order.now (pebbles_of player) player }
    ensures totals { IfOk result (λ totals. totals ≡ totals_of (played graph.now (pebbles_of player) order.now)) }
    ensures faults { O.faults out.new ≡ after_write (O.faults out.old) result }
    ensures wants { OnOk result (O.wants out.new ≡ O.wants out.old) }
    ensures ok { OnOk result (AppendsPiece (O.written out.old) (O.written out.new) (moves_text (played graph.now (pebbles_of player) order.now))) }
    ensures err { OnErr result (AppendsPart (O.written out.old) (O.written out.new) (moves_text (played graph.now (pebbles_of player) order.now))) }
{
    loop {
        match player.step(alloc, graph, order) {
            Ok(Some(moves)) => put_moves(line, moves.as_slice(), out)?,
            Ok(None) => return Ok(player.totals()),
            Err(Memory) => return Err(SinkFault::Memory),
        }
    }
}

/// Writes the moves of a player that stands before the first instance of an order, and then their totals.
pub(crate) fn put_lines<O: Sink>(
    alloc: Global,
    graph: &Graph,
    order: &[u32],
    player: Player,
    out: &mut O,
) -> Result<(), SinkFault>
    requires { IsAtStart graph.now order.now (pebbles_of player) player }
    ensures faults { O.faults out.new ≡ after_write (O.faults out.old) result }
    ensures wants { OnOk result (O.wants out.new ≡ O.wants out.old) }
    ensures ok { OnOk result (AppendsPiece (O.written out.old) (O.written out.new) (play_text (played graph.now (pebbles_of player) order.now))) }
    ensures err { OnErr result (AppendsPart (O.written out.old) (O.written out.new) (play_text (played graph.now (pebbles_of player) order.now))) }
{
    let mut line = Vec::new(alloc);
    let totals = put_steps(alloc, graph, order, player, &mut line, out)?;
    put_totals(&mut line, totals, out)
}
