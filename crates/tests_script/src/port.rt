// Sources and sinks: what they give, take and count.
use cow_port::{
    Failed, MemorySink, MemorySource, PlainSource, ReaderSource, Sink, Source, WriterSink,
};
use std::alloc::Global;
use std::io;
use std::io::{Read, Write};
use std::test::Fail;

/// A reader and writer that always fails.
#[derive(Drop)]
struct Broken;

impl Read for Broken {
    fn read(&mut self, _: &mut [u8]) -> io::Result<usize> {
        Err(io::Error::from(io::ErrorKind::BrokenPipe))
    }
}

impl Write for Broken {
    fn write(&mut self, _: &[u8]) -> io::Result<usize> {
        Err(io::Error::from(io::ErrorKind::BrokenPipe))
    }

    fn flush(&mut self) -> io::Result<()> {
        Ok(())
    }
}

/// What this many reads give that have room for two bytes, each with a `|` behind it. `!` is a fault.
fn given<S: Source>(alloc: Global, source: &mut S, reads: u32) -> Result<Vec<u8>, Fail> {
    let mut text = Vec::new(alloc);
    for _ in 0..reads {
        let mut room = [0; 2];
        match source.read(&mut room) {
            Ok(n) => text.extend_from_slice(room.get(..n).unwrap_or(b"?"))?,
            Err(Failed) => text.push(b'!')?,
        }
        text.push(b'|')?;
    }
    Ok(text)
}

/// How many bytes of each piece a sink takes. `None` is a fault.
fn taken<K: Sink>(
    alloc: Global,
    sink: &mut K,
    pieces: &[&[u8]],
) -> Result<Vec<Option<usize>>, Fail> {
    let mut counts = Vec::new(alloc);
    for piece in pieces {
        counts.push(sink.write(piece).ok())?;
    }
    Ok(counts)
}

#[test]
fn a_reader_is_read_to_its_end(rt: HostRuntime) -> Result<(), Fail> {
    let mut source = ReaderSource {
        reader: b"abc".as_slice(),
        faults: 0,
    };
    let text = given(rt.alloc(), &mut source, 3)?;
    assert_eq!(rt; text.as_slice(), b"ab|c||".as_slice());
    assert_eq!(rt; source.faults, 0);
    Ok(())
}

#[test]
fn a_fault_of_a_reader_is_counted(rt: HostRuntime) -> Result<(), Fail> {
    let mut source = ReaderSource {
        reader: Broken,
        faults: 7,
    };
    let text = given(rt.alloc(), &mut source, 1)?;
    assert_eq!(rt; text.as_slice(), b"!|".as_slice());
    assert_eq!(rt; source.faults, 8);
    Ok(())
}

#[test]
fn a_writer_gets_the_bytes(rt: HostRuntime) -> Result<(), Fail> {
    let alloc = rt.alloc();
    let mut sink = WriterSink {
        writer: Vec::new(alloc),
        faults: 0,
    };
    let counts = taken(alloc, &mut sink, &[b"ab", b""])?;
    assert_eq!(rt; counts.as_slice(), [Some(2), Some(0)].as_slice());
    assert_eq!(rt; sink.writer.as_slice(), b"ab".as_slice());
    assert_eq!(rt; sink.faults, 0);
    Ok(())
}

#[test]
fn a_fault_of_a_writer_is_counted(rt: HostRuntime) -> Result<(), Fail> {
    let mut sink = WriterSink {
        writer: Broken,
        faults: u64::MAX,
    };
    let counts = taken(rt.alloc(), &mut sink, &[b"ab"])?;
    assert_eq!(rt; counts.as_slice(), [None].as_slice());
    assert_eq!(rt; sink.faults, u64::MAX);
    Ok(())
}

#[test]
fn a_plain_source_gives_what_fits(rt: HostRuntime) -> Result<(), Fail> {
    let alloc = rt.alloc();
    let mut source = PlainSource {
        bytes: b"abc".to_vec(alloc)?,
        at: 0,
    };
    let text = given(alloc, &mut source, 3)?;
    assert_eq!(rt; text.as_slice(), b"ab|c||".as_slice());
    Ok(())
}

#[test]
fn a_source_gives_parts_and_fails_where_told(rt: HostRuntime) -> Result<(), Fail> {
    let alloc = rt.alloc();
    let mut source = MemorySource {
        bytes: b"abc".to_vec(alloc)?,
        at: 0,
        most: 0,
        calls: 0,
        failing: vec![in alloc; 2]?,
        faults: 0,
    };
    let text = given(alloc, &mut source, 3)?;
    assert_eq!(rt; text.as_slice(), b"a|!|b|".as_slice());
    assert_eq!(rt; source.faults, 1);
    Ok(())
}

#[test]
fn a_sink_takes_parts_fails_where_told_and_never_grows(rt: HostRuntime) -> Result<(), Fail> {
    let alloc = rt.alloc();
    let mut sink = MemorySink {
        bytes: Vec::with_capacity(alloc, 3)?,
        most: 2,
        calls: 0,
        failing: vec![in alloc; 2]?,
        faults: 0,
    };
    let counts = taken(alloc, &mut sink, &[b"abc", b"c", b"cd", b"", b"d"])?;
    let wanted = [Some(2), None, Some(1), Some(0), None];
    assert_eq!(rt; counts.as_slice(), wanted.as_slice());
    assert_eq!(rt; sink.bytes.as_slice(), b"abc".as_slice());
    assert_eq!(rt; sink.faults, 2);
    Ok(())
}
