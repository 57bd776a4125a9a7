//! The thin adapters over std's readers and writers: the trusted edge. They pass on what std's
//! object tells of its bytes, and count its errors.

ghost use Rattle.std.specs.Prelude.{◌≡◌};

use crate::sink::Sink;
use crate::source::{Failed, Source};
use std::io::{Read, Write};

/// A source over any reader of std. Its count of faults is the number of the reader's errors, and
/// stops at the greatest `u64`.
#[derive(Drop)]
pub struct ReaderSource<R: Read> {
    reader: R,
    errors: u64,
}

impl<R: Read> ReaderSource<R> {
    /// A source that hands on what the reader gives from now on, and has counted no errors yet.
    pub fn new(reader: R) -> ReaderSource<R>
        ensures reader { result.reader ≡ reader }
        ensures none { result.errors ≡ 0 }
    {
        ReaderSource { reader, errors: 0 }
    }
}

impl<R: Read> Source for ReaderSource<R> {
    ghost left = { λ s. R.remaining s.reader };

    ghost faults = { λ s. s.errors };

    fn read(&mut self, into: &mut [u8]) -> Result<usize, Failed> {
        match self.reader.read(into) {
            Ok(count) => Ok(count),
            Err(_) => {
                self.errors = self.errors.saturating_add(1);
                Err(Failed)
            }
        }
    }
}

/// A sink over any writer of std. Its count of faults is the number of the writer's errors and of
/// the writes that took nothing, and stops at the greatest `u64`.
#[derive(Drop)]
pub struct WriterSink<W: Write> {
    writer: W,
    errors: u64,
}

impl<W: Write> WriterSink<W> {
    /// A sink that hands on to the writer, behind what it holds, and has counted no errors yet.
    pub fn new(writer: W) -> WriterSink<W>
        ensures writer { result.writer ≡ writer }
        ensures none { result.errors ≡ 0 }
    {
        WriterSink { writer, errors: 0 }
    }
}

impl<W: Write> Sink for WriterSink<W> {
    ghost holds = { λ s. W.contents s.writer };

    ghost faults = { λ s. s.errors };

    fn write(&mut self, piece: &[u8]) -> Result<usize, Failed> {
        match self.writer.write(piece) {
            Ok(count) if count > 0 => Ok(count),
            _ => {
                self.errors = self.errors.saturating_add(1);
                Err(Failed)
            }
        }
    }
}
