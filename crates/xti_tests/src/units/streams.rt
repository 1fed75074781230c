//! Sources and sinks.

use std::alloc::Global;
use std::io;
use std::io::{ErrorKind, Read, Write};
use xti_base::Octets;
use xti_io::*;

// Gives bytes, counts its reads from 1, and fails at the one of this number.
#[derive(Drop)]
struct CountedReader<'a> {
    bytes: &'a [u8],
    reads: u64,
    fails: u64,
}

impl Read for CountedReader<'_> {
    fn read(&mut self, buf: &mut [u8]) -> io::Result<usize> {
        self.reads = self.reads.saturating_add(1);
        if self.reads == self.fails {
            return Err(ErrorKind::Other.into());
        }
        self.bytes.read(buf)
    }
}

// Takes bytes, counts its writes from 1, and fails at the one of this number.
#[derive(Drop)]
struct CountedWriter {
    bytes: Vec<u8>,
    writes: u64,
    fails: u64,
}

impl Write for CountedWriter {
    fn write(&mut self, buf: &[u8]) -> io::Result<usize> {
        self.writes = self.writes.saturating_add(1);
        if self.writes == self.fails {
            return Err(ErrorKind::Other.into());
        }
        self.bytes.write(buf)
    }

    fn flush(&mut self) -> io::Result<()> {
        Ok(())
    }
}

/// Whether all that the source gives, at most so many bytes, is this.
fn gives<R: Source>(alloc: Global, source: &mut R, bytes: &[u8]) -> bool {
    let all = read_all(alloc, source, bytes.len());
    let is_same = matches!(&all, Ok(all) if all.as_slice() == bytes);
    drop(all);
    is_same
}

// No contract of `Read` and `Write` tells a call that is made again after an error from one call, nor a call for one byte
// from a call for more: these counts do.

/// In how many reads the bytes are read, once more where a read failed, which is told as a fault; `None` where others are.
fn count_reads(alloc: Global, bytes: &[u8], fails: u64) -> Option<u64> {
    let mut reader = CountedReader {
        bytes,
        reads: 0,
        fails,
    };
    let mut source = StdSource::new(&mut reader);
    let is_told = fails == 0
        || read_all(alloc, &mut source, bytes.len()).err() == Some(ReadEnd::Fault);
    if is_told && gives(alloc, &mut source, bytes) {
        Some(reader.reads)
    } else {
        None
    }
}

/// In how many writes the bytes are written, once more where a write failed, which is told as a fault before any byte; `None`
/// where others are.
fn count_writes(alloc: Global, bytes: &[u8], fails: u64) -> Option<u64> {
    let mut writer = CountedWriter {
        bytes: Vec::new(alloc),
        writes: 0,
        fails,
    };
    let mut sink = StdSink::new(&mut writer);
    let is_told = fails == 0 || write_all(&mut sink, bytes) == Err(WriteEnd::Fault { written: 0 });
    let is_done = is_told && write_all(&mut sink, bytes).is_ok();
    let is_whole = is_done && writer.bytes.as_slice() == bytes;
    let writes = writer.writes;
    drop(writer);
    if is_whole { Some(writes) } else { None }
}

/// Whether so many bytes are read, and are written, in at most ten calls.
fn are_calls_few(alloc: Global, length: usize) -> bool {
    let Ok(bytes) = vec![in alloc; 7u8; length] else {
        return false;
    };
    let reads = count_reads(alloc, bytes.as_slice(), 0);
    let writes = count_writes(alloc, bytes.as_slice(), 0);
    drop(bytes);
    matches!((reads, writes), (Some(0..=10), Some(0..=10)))
}

/// Whether a sink in memory keeps these bytes.
fn is_kept(alloc: Global, bytes: &[u8]) -> bool {
    let Ok(mut sink) = SureSink::new(alloc, bytes.len()) else {
        return false;
    };
    let is_kept = write_all(&mut sink, bytes).is_ok() && sink.held() == bytes;
    drop(sink);
    is_kept
}

/// Whether a source in memory gives these bytes.
fn is_given(alloc: Global, bytes: &[u8]) -> bool {
    let Ok(copy) = Octets::copy_of(alloc, bytes) else {
        return false;
    };
    let mut source = SureSource::new(copy);
    let is_given = gives(alloc, &mut source, bytes);
    drop(source);
    is_given
}

#[test]
fn calls_are_counted(rt: HostRuntime) {
    let reads = count_reads(rt.alloc(), b"abc", 1);
    let writes = count_writes(rt.alloc(), b"abc", 1);
    assert!(rt; reads == Some(3) && writes == Some(2));
    let are_few = are_calls_few(rt.alloc(), 100_000);
    assert!(rt; are_few && is_given(rt.alloc(), b"abc") && is_kept(rt.alloc(), b"abc"));
}
