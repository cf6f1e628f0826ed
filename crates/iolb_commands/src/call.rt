//! The program's call.

ghost use Rattle.std.specs.Prelude.{◌≡◌, ◌≤◌};
ghost use Rattle.command_words.specs.Requests.{bytes_of};
ghost use Rattle.iolb_commands.specs.Stop.{stop_status, stop_line as line_of_stop};
ghost use Rattle.iolb_commands.specs.Written.{LineWritten, WantsEnd};
ghost use Rattle.iolb_commands.specs.Outcome.{Outcome, call_of};
ghost use Rattle.iolb_commands.specs.Headline.{IsDoneAsAsked};
ghost use Rattle.iolb_commands.specs.Use.{HasOneFaultAtMost, files_use, sink_use};

use crate::lines::stop_line;
use crate::requests::run_command;
use crate::status::Status;
use crate::stop::Stop;
use crate::writing::{no_memory, write_answer, write_line};
use command_words::command_of;
use iolb_host::{Files, Sink};
use std::alloc::Global;
use tile_sched::replays_are_one;

/// Writes why a request about files of these names stops.
fn stopped<E: Sink>(alloc: Global, names: &[String], stop: &Stop, err: &mut E) -> Status
    ensures written { LineWritten (sink_use E.written E.faults err.old err.new) (line_of_stop (bytes_of names.now) stop.now) (stop_status stop.now) result }
    ensures wants { WantsEnd result (E.wants err.old) (E.wants err.new) }
{
    match stop_line(alloc, names, stop) {
        Ok(line) => write_line(err, line.as_slice(), stop.status()),
        Err(_) => no_memory(err),
    }
}

/// Does what the words after the program's name ask for.
///
/// - `check PROGRAM CERTIFICATE` checks a certificate and prints its bound.
/// - `bound PROGRAM` makes a certificate and prints it, with its bound on the standard error.
/// - `eval PROGRAM CERTIFICATE S NAME=NUMBER...` checks it and prints the values of the bound's branches, and its own, with S red
///   pebbles at these sizes of the program's parameters.
/// - `parallel PROGRAM CERTIFICATE P S NAME=NUMBER...` prints its value for P processors with S red pebbles each.
/// - `levels PROGRAM CERTIFICATE CAPS NAME=NUMBER...` prints a value for each boundary of fast levels of these capacities.
/// - `traffic PROGRAM CERTIFICATE STORES S NAME=NUMBER...` checks stores too, and prints loads, stores and their sum.
/// - `replay PROGRAM SCHEDULE S NAME=NUMBER...` plays a schedule with S red pebbles at these sizes, and prints the moves and how
///   many of them load, store and compute.
/// - `climb PROGRAM MOVES CAPS NAME=NUMBER...` plays moves over fast levels of these capacities, and prints what crosses each
///   boundary.
/// - `sample N` values a bound of N matrix products.
pub fn run<F: Files, O: Sink, E: Sink>(
    alloc: Global,
    words: &Vec<String>,
    files: &mut F,
    out: &mut O,
    err: &mut E,
) -> Status
    ensures outcome { Outcome result (call_of words.now.items (F.told files.old)) (record {
      files = files_use F.faults files.old files.new;
      output = sink_use O.written O.faults out.old out.new;
      error = sink_use E.written E.faults err.old err.new;
    }) }
    ensures headline { result ≡ Status.Done → IsDoneAsAsked (call_of words.now.items (F.told files.old)) (record {
      files = files_use F.faults files.old files.new;
      output = sink_use O.written O.faults out.old out.new;
      error = sink_use E.written E.faults err.old err.new;
    }) }

    // Whatever the status is: what the files tell stays, one read had a fault, if any, and no count of a sink falls.
    ensures told_stays { F.told files.new ≡ F.told files.old }
    ensures reads { HasOneFaultAtMost (files_use F.faults files.old files.new) }
    ensures output_counts { O.faults out.old ≤ O.faults out.new }
    ensures error_counts { E.faults err.old ≤ E.faults err.new }

    // Where a sink answers that memory is wanted, the status is 9, or 7.
    ensures output_wants { WantsEnd result (O.wants out.old) (O.wants out.new) }
    ensures error_wants { WantsEnd result (E.wants err.old) (E.wants err.new) }
{
    replays_are_one();
    let command = match command_of(alloc, words.as_slice()) {
        Ok(Some(command)) => command,
        Ok(None) => return stopped(alloc, &[], &Stop::Words, err),
        Err(_) => return stopped(alloc, &[], &Stop::Memory, err),
    };
    match run_command(alloc, &command, files) {
        Ok(answer) => write_answer(alloc, answer, out, err),
        Err(stop) => stopped(alloc, command.files, &stop, err),
    }
}
