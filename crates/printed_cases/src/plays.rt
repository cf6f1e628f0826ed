//! Plays of programs, beside values that their loads may not be below.

ghost use Rattle.std.specs.Prelude.{◌≤◌};

use crate::trees::numbers;
use affine_c::read_program;
use iolb_host::Files;
use pebble_game::Graph;
use pebble_replay::replay;
use plain_graph::graphs::graph;
use plain_graph::orders::program_order;
use std::alloc::{AllocError, Global};

/// The most bytes of a file.
const MOST: u64 = 1 << 20;

/// The loads of a graph that is played in the order of its program with so many red pebbles.
fn loads_of(alloc: Global, graph: &Graph, s: u64) -> Option<u64>
    requires { 1 ≤ s }
{
    let order = program_order(alloc, graph).ok()?;
    let played = replay(alloc, graph, order.as_slice(), s).ok()?;
    Some(played.loads)
}

/// The loads of a program that is played in its own order at these sizes.
fn loads_at<F: Files>(
    alloc: Global,
    folder: &mut F,
    name: &str,
    s: u64,
    sizes: &[i128],
) -> Option<u64> {
    let text = folder.read(name, MOST).ok()?;
    let program = read_program(alloc, text.as_slice()).ok()?;
    let graph = graph(alloc, program.statements(), program.tree(), sizes).ok()?;
    if s == 0 {
        return None;
    }
    loads_of(alloc, &graph, s)
}

/// Writes whether the play that a line names makes as many loads as it says, at least: a program, the number of loads, that
/// of red pebbles, and sizes.
fn write_line<F: Files>(
    alloc: Global,
    folder: &mut F,
    line: &str,
    page: &mut Vec<u8>,
) -> Result<(), AllocError> {
    page.extend_from_slice(line.as_bytes())?;
    let mut words = Vec::new(alloc);
    for word in line.split_whitespace() {
        words.push(word)?;
    }
    let [program, least, s, sizes @ ..] = words.as_slice() else {
        return page.extend_from_slice(b" too few words\n");
    };
    let (Ok(least), Ok(s)) = (least.parse::<u64>(), s.parse::<u64>()) else {
        return page.extend_from_slice(b" no number\n");
    };
    let sizes = numbers(alloc, sizes)?;
    page.extend_from_slice(
        match loads_at(alloc, folder, program, s, sizes.as_slice()) {
            Some(loads) if loads >= least => b" holds\n".as_slice(),
            Some(_) => b" has fewer loads\n".as_slice(),
            None => b" isn't played\n".as_slice(),
        },
    )
}

/// Writes of each line whether its play makes as many loads as it says, at least.
pub(crate) fn write<F: Files>(
    alloc: Global,
    folder: &mut F,
    bytes: &[u8],
    page: &mut Vec<u8>,
) -> Result<(), AllocError> {
    let text = str::from_utf8(bytes).unwrap_or("");
    for line in text.lines() {
        write_line(alloc, folder, line, page)?;
    }
    Ok(())
}
