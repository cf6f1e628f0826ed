//! What callers can conclude from the traits of the host alone, and the answers of each kind of files and sinks.

ghost use Rattle.std.specs.Prelude.{◌≡◌, ◌⊎◌, ℕ, ◌≤◌, List, length, Some, IfOk, OnOk, IfSome, IsErrOf};
ghost use Rattle.std.specs.Io.KnownBytes.{append_known};
ghost use Rattle.iolb_host.specs.declared.files.FileFault.TheVariants.{Failed};
ghost use Rattle.iolb_host.specs.Faults.{after_fault};
ghost use Rattle.iolb_host.specs.Sink.{after_write};
ghost use Rattle.iolb_host.specs.Files.{FileMap, content_of};

use iolb_host::{
    FileFault, Files, MemFiles, MemSink, Sink, SinkFault, StdFiles, StdSink, SureFiles, SureSink,
};
use std::alloc::{AllocError, Global};
use std::collections::BTreeMap;
use std::test::Fail;

// Two files, read one after the other.
fn read_both<F: Files>(
    files: &mut F,
    first: &str,
    second: &str,
    most: u64,
) -> Result<(Vec<u8>, Vec<u8>), FileFault>
    ensures told_stays { F.told files.new ≡ F.told files.old }
    ensures exact { IfOk result (λ both. IfSome (F.told files.old) (λ map.
        (content_of map first.now ≡ Some both.0.items) × (content_of map second.now ≡ Some both.1.items))) }

    // The fault is that of the read that gave it, and after Ok there is none.
    ensures no_fault { OnOk result (F.faults files.new ≡ F.faults files.old) }
    ensures fault { IsErrOf result FileFault.Failed →
        (F.faults files.new ≡ after_fault (F.faults files.old) first.now Failed)
        ⊎ (F.faults files.new ≡ after_fault (F.faults files.old) second.now Failed) }

    // Files that are there, and short enough, are neither missing nor too long.
    ensures there { (map : FileMap) (a b : List ℕ) → F.told files.old ≡ Some map
        → content_of map first.now ≡ Some a → content_of map second.now ≡ Some b
        → length a ≤ most → length b ≤ most
        → (IsErrOf result FileFault.Missing → ⊥) × (IsErrOf result FileFault.TooLong → ⊥) }
{
    let a = files.read(first, most)?;
    let b = files.read(second, most)?;
    Ok((a, b))
}

// Two pieces, written one after the other.
fn put_both<O: Sink>(sink: &mut O, first: &[u8], second: &[u8]) -> Result<(), SinkFault>
    ensures faults { O.faults sink.new ≡ after_write (O.faults sink.old) result }
    ensures ok { OnOk result (O.written sink.new
        ≡ append_known (append_known (O.written sink.old) first.now) second.now) }
{
    sink.put(first)?;
    sink.put(second)
}

// Over a sink that never fails, a failure never comes.
fn put_surely(sink: &mut SureSink, piece: &[u8]) -> Result<(), SinkFault>
    ensures { ¬ IsErrOf result SinkFault.Failed }
{
    put_both(sink, piece, piece)
}

fn two_files(alloc: Global) -> Result<BTreeMap<String, Vec<u8>>, AllocError> {
    let mut files = BTreeMap::new(alloc);
    files.insert("a".to_string(alloc)?, b"xyz".to_vec(alloc)?)?;
    files.insert("b".to_string(alloc)?, Vec::new(alloc))?;
    Ok(files)
}

#[test]
fn files_in_memory_answer_by_their_map(rt: HostRuntime) -> Result<(), Fail> {
    let alloc = rt.alloc();
    let mut files = MemFiles::new(alloc, two_files(alloc)?, vec![in alloc; 1]?);
    assert_eq!(rt; files.read("a", 3)?.as_slice(), b"xyz".as_slice());
    let faults = [
        ("a", 3, FileFault::Failed),
        ("c", 3, FileFault::Missing),
        ("a", 2, FileFault::TooLong),
    ];
    for (name, most, fault) in faults {
        assert_eq!(rt; files.read(name, most).err(), Some(fault), "at {name}");
    }
    assert_eq!(rt; files.read("b", 0)?.len(), 0);

    let mut files = SureFiles::new(alloc, two_files(alloc)?);
    let (first, second) = read_both(&mut files, "a", "b", 3)?;
    assert_eq!(rt; first.as_slice(), b"xyz".as_slice());
    assert_eq!(rt; second.len(), 0);
    assert_eq!(rt; files.read("c", 3).err(), Some(FileFault::Missing));
    Ok(())
}

#[test]
fn sinks_in_memory_append(rt: HostRuntime) -> Result<(), Fail> {
    let alloc = rt.alloc();
    let mut sink = MemSink::new(alloc, vec![in alloc; 1]?);
    sink.put(b"ab")?;
    assert_eq!(rt; sink.put(b"cd"), Err(SinkFault::Failed));
    sink.put(b"ef")?;
    assert_eq!(rt; sink.bytes(), b"abef".as_slice());

    let mut sink = SureSink::new(alloc);
    put_surely(&mut sink, b"ab")?;
    assert_eq!(rt; sink.bytes(), b"abab".as_slice());
    Ok(())
}

#[test]
fn the_system_is_reached(rt: HostRuntime) -> Result<(), Fail> {
    let mut files = StdFiles::new(&rt);
    assert_eq!(rt;
        files.read("no such file", 9).err(),
        Some(FileFault::Missing)
    );
    assert_eq!(rt; files.read("/", 9).err(), Some(FileFault::Failed));
    assert_eq!(rt; files.read("/dev/null", 0)?.len(), 0);
    assert_ne!(rt; files.read("/proc/self/comm", 64)?.len(), 0);
    assert_eq!(rt;
        files.read("/dev/zero", 9000).err(),
        Some(FileFault::TooLong)
    );
    let mut output = StdSink::output(rt.alloc(), &rt)?;
    output.put(b"output\n")?;
    output.finish()?;
    StdSink::error(&rt).put(b"error\n")?;
    Ok(())
}
