//! What the standard output holds reaches its stream at last.

use crate::{Sink, StdSink};
use std::io;
use std::io::{BufWriter, Write};
use std::test::Fail;

// A stream that holds what it is given until it is flushed.
#[derive(Drop)]
struct Holding {
    held: Vec<u8>,
    flushed: Vec<u8>,
}

impl Write for Holding {
    fn write(&mut self, buf: &[u8]) -> io::Result<usize> {
        self.held.extend_from_slice(buf)?;
        Ok(buf.len())
    }

    fn flush(&mut self) -> io::Result<()> {
        self.flushed.extend_from_slice(self.held.as_slice())?;
        self.held.clear();
        Ok(())
    }
}

#[test]
fn what_is_held_is_flushed_at_last(rt: HostRuntime) -> Result<(), Fail> {
    let alloc = rt.alloc();
    let stream = Holding {
        held: Vec::new(alloc),
        flushed: Vec::new(alloc),
    };
    let mut sink = StdSink {
        stream: BufWriter::with_capacity(alloc, 4, stream)?,
        faults: 0,
    };
    sink.put(b"ab")?;
    assert_eq!(rt; sink.stream.get_ref().held.len(), 0);
    sink.put(b"cde")?;
    assert_eq!(rt; sink.stream.get_ref().flushed.len(), 0);
    sink.finish()?;
    assert_eq!(rt;
        sink.stream.get_ref().flushed.as_slice(),
        b"abcde".as_slice()
    );
    Ok(())
}
