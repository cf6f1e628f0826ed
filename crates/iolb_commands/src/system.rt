//! The call that the system makes, and its end.

ghost use Rattle.std.specs.Prelude.{◌≡◌, ◌≢◌, ◌≤◌, [], drop, IfOk, IfErr};
ghost use Rattle.std.specs.Io.Buffered.{writer_buffer};
ghost use Rattle.std.specs.Io.KnownBytes.{Keeps};
ghost use Rattle.std.specs.IoError.{error_kind};
ghost use Rattle.std.specs.Vec.Iter.{into_iter_items};
ghost use Rattle.iolb_host.specs.StdSink.{fault_count, stream_of};
ghost use Rattle.iolb_commands.specs.Called.{Finishes, with_faults, words_behind};
ghost use Rattle.iolb_commands.specs.Headline.{IsDoneAsAsked};
ghost use Rattle.iolb_commands.specs.Outcome.{Call, Outcome, call_of};
ghost use Rattle.iolb_commands.specs.Use.{CallUse, HasOneFaultAtMost, files_use, sink_use};
ghost use Rattle.iolb_commands.specs.Written.{EndsForWant, WantsEnd};

use crate::call::run;
use crate::status::Status;
use crate::writing::no_memory;
use affine_form::Memory;
use iolb_host::{Files, Sink, StdSink};
use std::alloc::Global;
use std::env::Args;
use std::io;
use std::io::{BufWriter, ErrorKind, Write};

/// The words behind the program's name, of all the words of a call.
fn behind_name(alloc: Global, mut words: Args) -> Result<Vec<String>, Memory>
    ensures { IfOk result (λ behind. behind.items ≡ drop 1 (into_iter_items words)) }
{
    let _name = words.next();
    let mut behind = Vec::new(alloc);
    while let Some(word) = words.next() {
        let Ok(()) = behind.push(word) else {
            return Err(Memory);
        };
    }
    Ok(behind)
}

/// Calls the program with the words that the system gave, of which the first is its name. A word that is no text is refused as
/// no words are.
pub fn called<F: Files, O: Sink, E: Sink>(
    alloc: Global,
    words: io::Result<Args>,
    files: &mut F,
    out: &mut O,
    err: &mut E,
) -> Status
    ensures outcome { Outcome result (call_of (words_behind words) (F.told files.old)) (record {
      files = files_use F.faults files.old files.new;
      output = sink_use O.written O.faults out.old out.new;
      error = sink_use E.written E.faults err.old err.new;
    }) }
    ensures headline { result ≡ Status.Done → IsDoneAsAsked (call_of (words_behind words) (F.told files.old)) (record {
      files = files_use F.faults files.old files.new;
      output = sink_use O.written O.faults out.old out.new;
      error = sink_use E.written E.faults err.old err.new;
    }) }
    ensures told_stays { F.told files.new ≡ F.told files.old }
    ensures reads { HasOneFaultAtMost (files_use F.faults files.old files.new) }
    ensures output_counts { O.faults out.old ≤ O.faults out.new }
    ensures error_counts { E.faults err.old ≤ E.faults err.new }
    ensures output_wants { WantsEnd result (O.wants out.old) (O.wants out.new) }
    ensures error_wants { WantsEnd result (E.wants err.old) (E.wants err.new) }

    // Where the system gives no words for another reason, that is told as want of memory.
    ensures want { IfErr words (λ error. error_kind error ≢ ErrorKind.InvalidData → EndsForWant result) }
{
    match words {
        Ok(words) => match behind_name(alloc, words) {
            Ok(behind) => run(alloc, &behind, files, out, err),
            Err(Memory) => no_memory(err),
        },
        Err(error) if error.kind() == ErrorKind::InvalidData => {
            let none = Vec::new(alloc);
            run(alloc, &none, files, out, err)
        }
        Err(_) => no_memory(err),
    }
}

/// Hands what a call wrote to the output to the system, where the call is done, and answers the status with which the program
/// ends: where that fails, it is that of a failed write.
pub fn finished<W: Write + Drop>(status: Status, out: &mut StdSink<BufWriter<W>>) -> Status
    ensures ends { Finishes status (fault_count out.old) (fault_count out.new) result }

    // At status 0 nothing is held any more. Whatever the status is, no byte is lost or put twice, and at every other one that
    // a call ends with nothing is handed on.
    ensures empty { result ≡ Status.Done → writer_buffer (stream_of out.new) ≡ [] }
    ensures keeps { Keeps (⟦<BufWriter<W> as Write>⟧.contents (stream_of out.old)) (⟦<BufWriter<W> as Write>⟧.contents (stream_of out.new)) }
    ensures others { status ≢ Status.Done → out.new ≡ out.old }

    // What the status of a call says, the status with which it ends says too.
    ensures outcome { (call : Call) (left : CallUse) → left.output.faults_after ≡ fault_count out.old
        → Outcome status call left → Outcome result call (with_faults left (fault_count out.new)) }
{
    if status != Status::Done {
        return status;
    }
    match out.finish() {
        Ok(()) => Status::Done,
        Err(_) => Status::WriteFault,
    }
}
