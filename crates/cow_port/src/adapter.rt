use crate::port::{Failed, Sink, Source, counted};
use std::io::{Read, Write};

/// A source over any reader. Each call reads once.
#[derive(Debug, Drop)]
pub struct ReaderSource<R: Read> {
    pub reader: R,
    /// How often the reader has failed, up to `u64::MAX`.
    pub faults: u64,
}

impl<R: Read> Source for ReaderSource<R> {
    ghost left = { λ s. R.remaining s.reader };

    ghost faults = { λ s. s.faults };

    fn read(&mut self, room: &mut [u8]) -> Result<usize, Failed> {
        match self.reader.read(room) {
            Ok(count) => Ok(count),
            Err(_) => Err(counted(&mut self.faults)),
        }
    }
}

/// A sink over any writer. Each call writes once, and a writer that takes nothing has failed.
#[derive(Debug, Drop)]
pub struct WriterSink<W: Write> {
    pub writer: W,
    /// How often the writer has failed, up to `u64::MAX`.
    pub faults: u64,
}

impl<W: Write> Sink for WriterSink<W> {
    ghost held = { λ s. W.contents s.writer };

    ghost faults = { λ s. s.faults };

    fn write(&mut self, piece: &[u8]) -> Result<usize, Failed> {
        match self.writer.write(piece) {
            Ok(count) if count > 0 || piece.is_empty() => Ok(count),
            _ => Err(counted(&mut self.faults)),
        }
    }
}
