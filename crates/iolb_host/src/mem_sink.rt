//! A sink in memory of which some writes fail.
ghost use Rattle.std.specs.Prelude.{◌≡◌, ◌++◌, ◌↔◌, [], Some, OnOk, IsErrOf, Contains};
ghost use Rattle.iolb_host.specs.MemSink.{after_put};
ghost use Rattle.iolb_host.specs.Sink.{after_want, after_write};

use crate::count::raise;
use crate::failing::is_listed;
use crate::{Sink, SinkFault};
use std::alloc::Global;
use std::marker::Model;

/// A sink in memory. The writes with the listed numbers fail and append nothing, where the first write has the number 0.
#[derive(Drop)]
pub struct MemSink {
    bytes: Vec<u8>,
    failing: Vec<u32>,
    calls: u64,
    faults: u64,
    wants: u64,
}

impl Model for MemSink {
    ghost use Rattle.iolb_host.specs.MemSink.{FailingSink};

    ghost Value = { FailingSink };

    ghost view = { λ sink. record {
      written = sink.bytes.items;
      failing = sink.failing.items;
      calls = sink.calls;
      faults = sink.faults;
      wants = sink.wants;
    } };
}

impl MemSink {
    /// A sink to which nothing is written yet, and the numbers of the writes that fail.
    pub fn new(alloc: Global, failing: Vec<u32>) -> Self
        ensures written { ⟦<MemSink as Sink>⟧.written result ≡ Some [] }
        ensures faults { ⟦<MemSink as Sink>⟧.faults result ≡ 0 }
        ensures wants { ⟦<MemSink as Sink>⟧.wants result ≡ 0 }
        ensures failing { result.failing ≡ failing.items }
        ensures calls { result.calls ≡ 0 }
    {
        MemSink {
            bytes: Vec::new(alloc),
            failing,
            calls: 0,
            faults: 0,
            wants: 0,
        }
    }

    /// What was written so far.
    pub fn bytes(&self) -> &[u8]
        ensures { ⟦<MemSink as Sink>⟧.written self.now ≡ Some result.now }
    {
        &self.bytes
    }
}

impl Sink for MemSink {
    ghost written = { λ sink. Some sink.written };

    ghost faults = { λ sink. sink.faults };

    ghost wants = { λ sink. sink.wants };

    fn put(&mut self, bytes: &[u8]) -> Result<(), SinkFault>
        ensures faults { self.new.faults ≡ after_write self.old.faults result }
        ensures wants { self.new.wants ≡ after_want self.old.wants result }
        ensures ok { OnOk result (self.new.written ≡ self.old.written ++ bytes.now) }
        ensures failed { IsErrOf result SinkFault.Failed → self.new.written ≡ self.old.written }
        ensures memory { IsErrOf result SinkFault.Memory → self.new.written ≡ self.old.written }

        // It fails exactly at the listed writes, and the counts are exact.
        ensures failing { IsErrOf result SinkFault.Failed ↔ Contains self.old.failing self.old.calls }
        ensures counted { self.new ≡ after_put self.old bytes.now result }
    {
        let fails = is_listed(&self.failing, self.calls);
        raise(&mut self.calls);
        if fails {
            raise(&mut self.faults);
            return Err(SinkFault::Failed);
        }
        match self.bytes.extend_from_slice(bytes) {
            Ok(()) => Ok(()),
            Err(_) => {
                raise(&mut self.wants);
                Err(SinkFault::Memory)
            }
        }
    }
}
