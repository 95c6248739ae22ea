use super::*;
use std::io;
use std::test::Fail;

#[test]
fn a_source_is_read_to_its_end_or_to_the_limit(rt: HostRuntime) -> Result<(), Fail> {
    for (limit, want) in [(10u32, "hello"), (4, "hello"), (3, "hell")] {
        let mut source = MemorySource::make(rt.alloc(), b"hello", &[])?;
        let bytes = read_all(rt.alloc(), &mut source, u64::from(limit))?;
        assert_eq!(rt; bytes.as_slice(), want.as_bytes(), "limit {limit}");
        assert_eq!(rt; source.faults(), 0);
    }
    Ok(())
}

#[test]
fn a_failed_read_is_told(rt: HostRuntime) -> Result<(), Fail> {
    let mut source = MemorySource::make(rt.alloc(), b"hello", &[2])?;
    let answer = read_all(rt.alloc(), &mut source, 10).err();
    assert_eq!(rt; answer, Some(ReadFault::Failed));
    assert_eq!(rt; source.faults(), 1);
    Ok(())
}

#[test]
fn a_failed_write_is_told(rt: HostRuntime) -> Result<(), Fail> {
    let mut sink = MemorySink::make(rt.alloc(), 8, &[3])?;
    assert_eq!(rt; write_all(&mut sink, b"abc"), Ok(()));
    assert_eq!(rt; sink.write(b"de"), Ok(2));
    assert_eq!(rt; write_all(&mut sink, b"f"), Err(Failed), "the third write");
    assert_eq!(rt;
        write_all(&mut sink, b"ghij"),
        Err(Failed),
        "room for three"
    );
    assert_eq!(rt; write_all(&mut sink, b"klm"), Ok(()));
    assert_eq!(rt; sink.write(b""), Ok(0));
    assert_eq!(rt; sink.bytes(), b"abcdeklm".as_slice());
    assert_eq!(rt; sink.faults(), 2);
    Ok(())
}

#[test]
fn readers_and_writers_of_std_are_sources_and_sinks(rt: HostRuntime) -> Result<(), Fail> {
    let mut source = StdSource::make(b"hello".as_slice());
    let bytes = read_all(rt.alloc(), &mut source, 10)?;
    assert_eq!(rt; bytes.as_slice(), b"hello".as_slice());

    // A slice takes what it has room for, and then nothing.
    let mut room = [0u8; 4];
    let mut sink = StdSink::make(room.as_mut_slice());
    assert_eq!(rt; sink.write(b"abc"), Ok(3));
    assert_eq!(rt; write_all(&mut sink, b"de"), Err(Failed));
    assert_eq!(rt; sink.write(b""), Ok(0));
    assert_eq!(rt; sink.faults(), 1);
    Ok(())
}

#[test]
fn standard_input_and_output_are_a_source_and_a_sink(rt: HostRuntime) -> Result<(), Fail> {
    let mut source = StdSource::make(rt.reader());
    let bytes = read_all(rt.alloc(), &mut source, 10)?;
    assert!(rt; bytes.is_empty());
    assert_eq!(rt; source.faults(), 0);

    let mut sink = StdSink::make(io::writer(&rt));
    assert_eq!(rt; write_all(&mut sink, b"a line\n"), Ok(()));
    assert_eq!(rt; sink.faults(), 0);
    Ok(())
}
