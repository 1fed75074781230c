//! Sources and sinks over readers and writers, as standard input and output.

ghost use Rattle.std.specs.Prelude.{◌≡◌, ◌<◌, None, is_err, length};
ghost use Rattle.xti_io.specs.Faults.{HasCause, counted};
ghost use Rattle.xti_io.specs.Source.{Reads};
ghost use Rattle.xti_io.specs.Sink.{Writes};
ghost use Rattle.xti_io.specs.Standard.{ReadsOf, WritesOf};

use crate::sink::Sink;
use crate::source::{Failed, Source};
use std::io::{Read, Write};

/// A source over a reader, which counts its errors. It tells nothing of its bytes.
#[derive(Drop)]
pub struct StdSource<R: Read> {
    reader: R,
    faults: u64,
}

impl<R: Read> StdSource<R> {
    /// A source over this reader.
    pub fn new(reader: R) -> StdSource<R>
        ensures reader { result.reader ≡ reader }
        ensures faults { result.faults ≡ 0 }
    {
        StdSource { reader, faults: 0 }
    }
}

impl<R: Read> Source for StdSource<R> {
    ghost left = { λ s. None };

    ghost faults = { λ s. s.faults };

    /// One read of the reader; an error of it is a fault.
    fn read(&mut self, buf: &mut [u8]) -> Result<usize, Failed>
        requires { 0 < length buf.old }
        ensures bytes { Reads None None result buf.new }
        ensures cause { HasCause self.old.faults self.new.faults result }
        ensures count { self.new.faults ≡ counted self.old.faults (is_err result) }
        ensures reader { ReadsOf R.remaining self.old.reader self.new.reader result buf.new }
    {
        match self.reader.read(buf) {
            Ok(count) => Ok(count),
            Err(_) => {
                self.faults = self.faults.saturating_add(1);
                Err(Failed)
            }
        }
    }
}

/// A sink over a writer without a buffer, which counts its errors. It tells nothing of its bytes.
#[derive(Drop)]
pub struct StdSink<W: Write> {
    writer: W,
    faults: u64,
}

impl<W: Write> StdSink<W> {
    /// A sink over this writer. The sink never flushes it.
    pub fn new(writer: W) -> StdSink<W>
        ensures writer { result.writer ≡ writer }
        ensures faults { result.faults ≡ 0 }
    {
        StdSink { writer, faults: 0 }
    }
}

impl<W: Write> Sink for StdSink<W> {
    ghost held = { λ s. None };

    ghost faults = { λ s. s.faults };

    /// One write of the writer; an error of it is a fault, and so is a write that takes nothing.
    fn write(&mut self, piece: &[u8]) -> Result<usize, Failed>
        requires { 0 < length piece.now }
        ensures bytes { Writes None None result piece.now }
        ensures cause { HasCause self.old.faults self.new.faults result }
        ensures count { self.new.faults ≡ counted self.old.faults (is_err result) }
        ensures writer { WritesOf W.contents self.old.writer self.new.writer result piece.now }
    {
        match self.writer.write(piece) {
            Ok(0) | Err(_) => {
                self.faults = self.faults.saturating_add(1);
                Err(Failed)
            }
            Ok(count) => Ok(count),
        }
    }
}
