use dch_io::*;
use std::test::Fail;

fn reads_by_steps(source: &mut MemorySource) -> bool {
    let mut piece = [0; 4];
    source.read(&mut piece) == Ok(2) && source.read(&mut piece) == Err(Failed)
}

// A source whose second read fails.
#[test]
fn memory_by_steps(rt: HostRuntime) -> Result<(), Fail> {
    let failing = vec![in rt.alloc(); 1]?;
    let mut source = MemorySource::new(b"abcde".to_vec(rt.alloc())?, 2, failing);
    assert!(rt; reads_by_steps(&mut source));
    Ok(())
}

fn writes_by_steps(sink: &mut MemorySink) -> bool {
    sink.write(b"ab") == Err(Failed)
        && sink.write(b"abc") == Ok(2)
        && sink.write(b"cd") == Ok(1)
        && sink.write(b"") == Ok(0)
        && sink.write(b"d") == Err(Failed)
        && sink.bytes() == b"abc".as_slice()
}

// A sink with room for three bytes whose first write fails.
#[test]
fn a_sink_that_fails(rt: HostRuntime) -> Result<(), Fail> {
    let failing = vec![in rt.alloc(); 0]?;
    let mut sink = MemorySink::new(vec![in rt.alloc(); 0; 3]?, 2, failing);
    assert!(rt; writes_by_steps(&mut sink));
    Ok(())
}

fn is_clean() -> bool {
    let mut piece = [0; 4];
    let mut clean = CleanSource::new(b"abcde");
    clean.read(&mut piece) == Ok(4)
        && clean.read(&mut piece) == Ok(1)
        && CleanSink::new().write(b"abc") == Ok(3)
}

#[test]
fn clean_and_standard(rt: HostRuntime) {
    let mut piece = [0; 4];
    let read = StdSource::new(b"xy".as_slice()).read(&mut piece);
    let written = StdSink::new(Vec::new(rt.alloc())).write(b"abc");
    assert!(rt; is_clean() && read == Ok(2) && written == Ok(3));
}
