//! Runs of the program over a source and a sink in memory.
//!
//! A value of many parts, as a source or a sink, is let go by `drop`: that is proved once for its type, and not once for
//! each place where it is let go.

ghost use Rattle.std.specs.Prelude.{◌≡◌, ◌-◌, ◌^◌, false, IfOk};
ghost use Rattle.xti_io.specs.Turns.{is_listed};

use std::alloc::{AllocError, Global};
use std::sync::Wait;
use std::thread::Threads;
use xti_base::{Calls, Octets};
use xti_io::{MemSink, MemSource};
use xti_run::{Gate, Words, program};

/// The numbers of a read and of a write that fail.
pub(crate) type Faults = (u32, u32);

/// The number of a call that no run comes to.
pub(crate) const NEVER: u32 = 1_000_000;

pub(crate) const NO_FAULTS: Faults = (NEVER, NEVER);

/// How many bytes a write takes.
pub(crate) const WRITE: u32 = 10;

/// A command, words with a space between each two, its input, how many bytes of it a read gives, the calls that fail, and the
/// status and the output that are wanted.
#[derive(Clone, Copy)]
pub(crate) struct Run<'a> {
    pub(crate) command: &'a str,
    pub(crate) input: &'a [u8],
    pub(crate) read: u32,
    pub(crate) faults: Faults,
    pub(crate) status: u8,
    pub(crate) output: &'a [u8],
}

/// What a run takes.
#[derive(Drop)]
struct Stage {
    words: Words,
    source: MemSource,
    sink: MemSink,
}

/// The list of this one call.
fn only(alloc: Global, call: u32) -> Result<Calls, AllocError>
    ensures { IfOk result (λ calls. is_listed (2 ^ 64 - 1) calls ≡ false) }
{
    let mut calls = Calls::new(alloc);
    calls.push(call as u64)?;
    Ok(calls)
}

/// A source of these bytes, so many a read, that fails at this read.
fn source_of(alloc: Global, input: &[u8], read: u32, failed: u32) -> Result<MemSource, AllocError> {
    let calls = only(alloc, failed)?;
    match Octets::copy_of(alloc, input) {
        Ok(bytes) => Ok(MemSource::new(bytes, read.max(1), calls)),
        Err(error) => {
            drop(calls);
            Err(error)
        }
    }
}

/// A sink that fails at this write.
fn sink_of(alloc: Global, failed: u32) -> Result<MemSink, AllocError> {
    let calls = only(alloc, failed)?;
    MemSink::new(alloc, 4096, WRITE, calls)
}

/// What the run takes, but for the words.
fn stage_of(alloc: Global, run: Run) -> Result<Stage, AllocError> {
    let (failed_read, failed_write) = run.faults;
    let source = source_of(alloc, run.input, run.read, failed_read)?;
    match sink_of(alloc, failed_write) {
        Ok(sink) => Ok(Stage {
            words: Words::new(alloc),
            source,
            sink,
        }),
        Err(error) => {
            drop(source);
            Err(error)
        }
    }
}

/// Adds the words of a command.
fn add_words(words: &mut Words, command: &str) -> Result<(), AllocError> {
    for word in command.split(' ') {
        words.push(word)?;
    }
    Ok(())
}

/// Whether the run, at whose steps a gate may hold the threads, ends with its status and has written its output.
pub(crate) fn holds<T: Threads + Wait + Sync, G: Gate>(
    rt: &T,
    alloc: Global,
    run: Run,
    gate: &G,
) -> bool {
    let Ok(mut stage) = stage_of(alloc, run) else {
        return false;
    };
    let Stage {
        words,
        source,
        sink,
    } = &mut stage;
    let has_words = add_words(words, run.command).is_ok();
    let status = program(rt, alloc, words, source, sink, gate);
    let holds = has_words && status.0 == run.status && sink.held() == run.output;
    drop(stage);
    holds
}
