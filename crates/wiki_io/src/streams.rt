// The streams of std as sources and sinks: the edge that is trusted. They tell what std tells of the reader or writer.
ghost use Rattle.std.specs.Prelude.{◌≡◌};

use crate::sinks::{Sink, Took};
use crate::sources::{Got, Source};
use std::io::{Read, Write};

/// A reader, such as standard input, as a source. Each error counts.
#[derive(Drop)]
pub struct ReadSource<R> {
    pub reader: R,
    pub faults: u64,
}

impl<R: Read> ReadSource<R> {
    /// No read has failed yet.
    pub fn new(reader: R) -> Self
        ensures { result ≡ record { reader = reader; faults = 0 } }
    {
        ReadSource { reader, faults: 0 }
    }
}

impl<R: Read> Source for ReadSource<R> {
    ghost left = { λ s. R.remaining s.reader };

    ghost faults = { λ s. s.faults };

    fn read(&mut self, buf: &mut [u8]) -> Got {
        match self.reader.read(buf) {
            Ok(0) => Got::End,
            Ok(n) => Got::Bytes(n),
            Err(_) => {
                self.faults = self.faults.saturating_add(1);
                Got::Failed
            }
        }
    }
}

/// A writer, such as standard output, as a sink. Each error counts, and each write that takes nothing.
#[derive(Drop)]
pub struct WriteSink<W> {
    pub writer: W,
    pub faults: u64,
}

impl<W: Write> WriteSink<W> {
    /// No write has failed yet.
    pub fn new(writer: W) -> Self
        ensures { result ≡ record { writer = writer; faults = 0 } }
    {
        WriteSink { writer, faults: 0 }
    }
}

impl<W: Write> Sink for WriteSink<W> {
    ghost taken = { λ s. W.contents s.writer };

    ghost faults = { λ s. s.faults };

    fn write(&mut self, bytes: &[u8]) -> Took {
        match self.writer.write(bytes) {
            Ok(n) if n > 0 => Took::Bytes(n),
            _ => {
                self.faults = self.faults.saturating_add(1);
                Took::Failed
            }
        }
    }
}
