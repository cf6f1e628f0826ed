//! The standard streams.
ghost use Rattle.std.specs.Prelude.{◌≡◌, ℕ, [], take, None, IfOk, OnOk, OnErr, IsErrOf};
ghost use Rattle.std.specs.Io.Buffered.{writer_buffer};
ghost use Rattle.std.specs.Io.KnownBytes.{Appends, Keeps};
ghost use Rattle.iolb_host.specs.Sink.{after_write};
ghost use Rattle.iolb_host.specs.StdSink.{stream_of as stream_in, fault_count as faults_in};

use crate::chunks::write_whole;
use crate::count::raise;
use crate::{Sink, SinkFault};
use std::alloc::{AllocError, Global};
use std::io::{BufWriter, Write};
use std::rt::{HostRuntime, Stderr, Stdout};

/// How many bytes of the standard output are held before they are handed to the system.
const HELD: usize = 1 << 16;

/// A stream of the system. It tells no bytes, and counts its faults in a counter of 64 bits.
#[derive(Drop)]
pub struct StdSink<W> {
    pub(crate) stream: W,
    pub(crate) faults: u64,
}

impl StdSink<BufWriter<Stdout>> {
    /// The standard output, behind a buffer. What `put` answers is about the buffer, whose bytes go to the system when it is
    /// full, and at last by `finish`; what reaches the system is always a prefix of what was put.
    pub fn output(alloc: Global, rt: &HostRuntime) -> Result<Self, AllocError>
        ensures written { IfOk result (λ sink. ⟦<StdSink<BufWriter<Stdout>> as Sink>⟧.written sink ≡ None) }
        ensures faults { IfOk result (λ sink. ⟦<StdSink<BufWriter<Stdout>> as Sink>⟧.faults sink ≡ 0) }
    {
        match BufWriter::with_capacity(alloc, HELD, rt.stdout()) {
            Ok(stream) => Ok(StdSink { stream, faults: 0 }),
            Err(_) => Err(AllocError),
        }
    }
}

impl<W: Write + Drop> StdSink<BufWriter<W>> {
    /// Hands what is held to the system. A failure is one of a write.
    pub fn finish(&mut self) -> Result<(), SinkFault>
        ensures faults { faults_in self.new ≡ after_write (faults_in self.old) result }
        ensures never_memory { ¬ IsErrOf result SinkFault.Memory }

        // Nothing is held any more after Ok. Whatever comes of it, no byte is lost or put twice.
        ensures empty { OnOk result (writer_buffer (stream_in self.new) ≡ []) }
        ensures keeps { Keeps (⟦<BufWriter<W> as Write>⟧.contents (stream_in self.old)) (⟦<BufWriter<W> as Write>⟧.contents (stream_in self.new)) }
    {
        match self.stream.flush() {
            Ok(()) => Ok(()),
            Err(_) => {
                raise(&mut self.faults);
                Err(SinkFault::Failed)
            }
        }
    }
}

impl StdSink<Stderr> {
    /// The standard error.
    pub fn error(rt: &HostRuntime) -> Self
        ensures written { ⟦<StdSink<Stderr> as Sink>⟧.written result ≡ None }
        ensures faults { ⟦<StdSink<Stderr> as Sink>⟧.faults result ≡ 0 }
    {
        StdSink {
            stream: rt.stderr(),
            faults: 0,
        }
    }
}

impl<W: Write> Sink for StdSink<W> {
    ghost use Rattle.iolb_host.specs.StdSink.{stream_of, fault_count};

    ghost written = { λ _. None };

    ghost faults = { λ sink. fault_count sink };

    ghost wants = { λ _. 0 };

    fn put(&mut self, bytes: &[u8]) -> Result<(), SinkFault>
        ensures faults { fault_count self.new ≡ after_write (fault_count self.old) result }
        ensures never_memory { ¬ IsErrOf result SinkFault.Memory }

        // Where it is known what the stream holds, it has gained the piece after Ok, and the piece's first bytes,
        // none, some or all, after a failure.
        ensures whole { OnOk result
            (Appends (W.contents (stream_of self.old)) (W.contents (stream_of self.new)) bytes.now) }
        ensures part { OnErr result ((count : ℕ)
            × Appends (W.contents (stream_of self.old)) (W.contents (stream_of self.new)) (take count bytes.now)) }
    {
        let outcome = write_whole(&mut self.stream, bytes);
        if outcome.is_err() {
            raise(&mut self.faults);
        }
        outcome
    }
}
