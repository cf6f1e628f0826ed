//! A sink in memory of which every write succeeds.
ghost use Rattle.std.specs.Prelude.{◌≡◌, [], Some};

use crate::count::raise;
use crate::{Sink, SinkFault};
use std::alloc::Global;
use std::marker::Model;

/// A sink in memory. A write fails only for want of memory.
#[derive(Drop)]
pub struct SureSink {
    bytes: Vec<u8>,
    wants: u64,
}

impl Model for SureSink {
    ghost use Rattle.iolb_host.specs.MemSink.{SureBytes};

    ghost Value = { SureBytes };

    ghost view = { λ sink. record { written = sink.bytes.items; wants = sink.wants } };
}

impl SureSink {
    /// A sink to which nothing is written yet.
    pub fn new(alloc: Global) -> Self
        ensures written { ⟦<SureSink as Sink>⟧.written result ≡ Some [] }
        ensures faults { ⟦<SureSink as Sink>⟧.faults result ≡ 0 }
        ensures wants { ⟦<SureSink as Sink>⟧.wants result ≡ 0 }
    {
        SureSink {
            bytes: Vec::new(alloc),
            wants: 0,
        }
    }

    /// What was written so far.
    pub fn bytes(&self) -> &[u8]
        ensures { ⟦<SureSink as Sink>⟧.written self.now ≡ Some result.now }
    {
        &self.bytes
    }
}

impl Sink for SureSink {
    ghost written = { λ sink. Some sink.written };

    ghost faults = { λ _. 0 };

    ghost wants = { λ sink. sink.wants };

    fn put(&mut self, bytes: &[u8]) -> Result<(), SinkFault> {
        match self.bytes.extend_from_slice(bytes) {
            Ok(()) => Ok(()),
            Err(_) => {
                raise(&mut self.wants);
                Err(SinkFault::Memory)
            }
        }
    }
}
