//! The ends of a call: what it writes.

ghost use Rattle.iolb_commands.specs.Use.{sink_use};
ghost use Rattle.iolb_commands.specs.Written.{EndsForWant, LineWritten, OutputWritten, WantSaid, WantsEnd};

use crate::answered::Answer;
use crate::lines::OUT_OF_MEMORY;
use crate::status::Status;
use iolb_host::{Sink, SinkFault};
use std::alloc::Global;
use tile_sched::Play;

/// Says on the standard error that there was no memory.
pub fn no_memory<E: Sink>(err: &mut E) -> Status
    ensures said { WantSaid (sink_use E.written E.faults err.old err.new) result }
    ensures ends { EndsForWant result }
{
    match err.put(OUT_OF_MEMORY) {
        Ok(()) => Status::NoMemory,
        Err(SinkFault::Memory) => Status::NoMemory,
        Err(SinkFault::Failed) => Status::WriteFault,
    }
}

/// Writes a line, or lines, to the standard error, and ends with the status.
pub(crate) fn write_line<E: Sink>(err: &mut E, line: &[u8], status: Status) -> Status
    ensures written { LineWritten (sink_use E.written E.faults err.old err.new) line.now status result }
    ensures wants { WantsEnd result (E.wants err.old) (E.wants err.new) }
{
    match err.put(line) {
        Ok(()) => status,
        Err(SinkFault::Failed) => Status::WriteFault,
        Err(SinkFault::Memory) => no_memory(err),
    }
}

/// Writes a text to the output.
fn write_text<O: Sink, E: Sink>(out: &mut O, err: &mut E, text: &Vec<u8>) -> Status
    ensures written { OutputWritten (sink_use O.written O.faults out.old out.new) (sink_use E.written E.faults err.old err.new) (Answer.Text text.now) result }
    ensures output_wants { WantsEnd result (O.wants out.old) (O.wants out.new) }
    ensures error_wants { WantsEnd result (E.wants err.old) (E.wants err.new) }
{
    match out.put(text.as_slice()) {
        Ok(()) => Status::Done,
        Err(SinkFault::Failed) => Status::WriteFault,
        Err(SinkFault::Memory) => no_memory(err),
    }
}

/// Writes the lines of a play to the output.
fn write_play<O: Sink, E: Sink>(alloc: Global, play: Play, out: &mut O, err: &mut E) -> Status
    ensures written { OutputWritten (sink_use O.written O.faults out.old out.new) (sink_use E.written E.faults err.old err.new) (Answer.Lines play) result }
    ensures output_wants { WantsEnd result (O.wants out.old) (O.wants out.new) }
    ensures error_wants { WantsEnd result (E.wants err.old) (E.wants err.new) }
{
    match play.put(alloc, out) {
        Ok(()) => Status::Done,
        Err(SinkFault::Failed) => Status::WriteFault,
        Err(SinkFault::Memory) => no_memory(err),
    }
}

/// Writes the text of a certificate to the output, and then that of its bound to the standard error.
fn write_bound<O: Sink, E: Sink>(
    out: &mut O,
    err: &mut E,
    certificate: Vec<u8>,
    bound: Vec<u8>,
) -> Status
    ensures written { OutputWritten (sink_use O.written O.faults out.old out.new) (sink_use E.written E.faults err.old err.new) (Answer.Bound certificate bound) result }
    ensures output_wants { WantsEnd result (O.wants out.old) (O.wants out.new) }
    ensures error_wants { WantsEnd result (E.wants err.old) (E.wants err.new) }
{
    match out.put(certificate.as_slice()) {
        Ok(()) => write_line(err, bound.as_slice(), Status::Done),
        Err(SinkFault::Failed) => Status::WriteFault,
        Err(SinkFault::Memory) => no_memory(err),
    }
}

/// Writes an answer to the output, and what is due of it to the standard error.
pub(crate) fn write_answer<O: Sink, E: Sink>(
    alloc: Global,
    answer: Answer,
    out: &mut O,
    err: &mut E,
) -> Status
    ensures written { OutputWritten (sink_use O.written O.faults out.old out.new) (sink_use E.written E.faults err.old err.new) answer result }
    ensures output_wants { WantsEnd result (O.wants out.old) (O.wants out.new) }
    ensures error_wants { WantsEnd result (E.wants err.old) (E.wants err.new) }
{
    match answer {
        Answer::Text(text) => write_text(out, err, &text),
        Answer::Lines(play) => write_play(alloc, play, out, err),
        Answer::Bound { certificate, bound } => write_bound(out, err, certificate, bound),
    }
}
