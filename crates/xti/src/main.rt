//! The command `xti`.
#![tactic(auto)]

use std::alloc::AllocError;
use std::io::{Eprint, ErrorKind, Input, Print};
use std::process::ExitCode;
use std::rt::Env;
use std::sync::Wait;
use std::thread::Threads;
use std::{env, io};
use xti_io::{Failed, Sink, StdSink, StdSource};
use xti_run::{NoGate, Words, program};

const VERSION: &str = "xti 0.2.0\n";

const USAGE: &str = "\
usage: xti replay [--summary]
       xti run [--summary]
       xti check
       xti frames
       xti link
       xti sock [--summary]
       xti gen --seed N [--summary]
       xti --help | -h | --version

Makes calls of the X/Open Transport Interface (XTI) inside its own process.
Each command but gen reads standard input; all print on standard output.

replay  reads a script, where '1 snd a data=t:hi' is a t_snd of worker 1, and
        prints its journal: each step with its answer. The workers take turns,
        so the journal is the same each time
run     reads a script, and prints the journal of a run with a thread for each
        worker but 0; the order of the steps may differ from run to run
check   reads a journal, and prints 'legal' and the number of its steps where
        each is what XTI gives there, else the number of the first wrong line,
        what should stand there and what does
frames  reads encoded TPI primitives, one after the other, and prints a line
        for each: its name, its fields and its data
link    reads a link script: what is sent, and what arrives, over datagrams
        that may be lost or repeated. Prints a line for each event of both
        ends, which do go back N, and a last line of counts
sock    copies its input, of at most 1048576 bytes, over two sockets of its
        own, and prints the journal of the calls that they make
gen     reads nothing, and prints a script that is generated from the number

--summary  prints one line of counts in place of the journal: steps, how they
           ended, bytes sent and received, workers that are blocked at the
           end; with gen the generated script is replayed for it
--seed N   the number, from 0 to 18446744073709551615

status: 0 done, 1 the words are no command, 2 the input is refused,
        3 a worker is blocked at the end, 4 out of memory,
        5 reading failed, 6 writing failed, 7 the journal is not legal

'man xti' (docs/xti.1 in the source) has the forms of scripts and journals.
";

/// The text that the words ask for where they are no command: the usage or the version.
fn help_or_version(words: &[String]) -> Option<&'static str> {
    match words {
        [word] => match word.as_str() {
            "--help" | "-h" => Some(USAGE),
            "--version" => Some(VERSION),
            _ => None,
        },
        _ => None,
    }
}

/// A sink that says on standard error why an input is refused.
#[derive(Drop)]
struct Console<'a, R, S: Sink> {
    rt: &'a R,
    sink: S,
}

impl<'a, R: Eprint, S: Sink> Sink for Console<'a, R, S> {
    ghost held = { λ s. S.held s.sink };

    ghost faults = { λ s. S.faults s.sink };

    fn write(&mut self, piece: &[u8]) -> Result<usize, Failed> {
        self.sink.write(piece)
    }

    fn explain(&mut self, reason: &[u8]) {
        let line = str::from_utf8(reason).unwrap_or("");
        // Nothing is left to tell where standard error fails too.
        let _ = eprint!(self.rt; "{line}\n");
    }
}

/// Runs the words over standard input and output. The usage goes to standard error where they are no command, and where the
/// input is refused a line that says why.
fn run_command<R: Threads + Wait + Sync + Input + Print + Eprint + AllocGlobal>(
    rt: &R,
    words: &Words,
) -> u8 {
    let mut source = StdSource::new(rt.reader());
    let mut sink = Console {
        rt,
        sink: StdSink::new(io::writer(rt)),
    };
    let status = program(rt, rt.alloc(), words, &mut source, &mut sink, &NoGate).0;
    if status == 1 {
        // Nothing is left to tell where standard error fails too.
        let _ = eprint!(rt; "{USAGE}");
    }
    status
}

/// The words after the program's own name; none where they are not UTF-8.
fn command_words<R: Env + AllocGlobal>(rt: &R) -> Result<Vec<String>, AllocError> {
    let mut words = Vec::new(rt.alloc());
    match env::args(rt) {
        Ok(all) => {
            for word in all.skip(1) {
                words.push(word)?;
            }
            Ok(words)
        }
        Err(e) if e.kind() == ErrorKind::OutOfMemory => Err(AllocError),
        Err(_) => Ok(words),
    }
}

/// Answers the words after the program's own name; the status, or out of memory.
fn answer<R: Threads + Wait + Sync + Input + Print + Eprint + Env + AllocGlobal>(
    rt: &R,
) -> Result<u8, AllocError> {
    let given = command_words(rt)?;
    if let Some(text) = help_or_version(given.as_slice()) {
        return Ok(match print!(rt; "{text}") {
            Ok(()) => 0,
            Err(_) => 6,
        });
    }
    let mut words = Words::new(rt.alloc());
    for word in &given {
        words.push(word.as_str())?;
    }
    Ok(run_command(rt, &words))
}

fn main(rt: HostRuntime) -> ExitCode {
    ExitCode::from(answer(&rt).unwrap_or(4))
}
