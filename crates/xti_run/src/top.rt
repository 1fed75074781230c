//! The top call.

ghost use Rattle.std.specs.Prelude.{◌≡◌, ◌≢◌, ◌<◌, ◌≤◌, ◌⊎◌, Some, None, IfOk, OnOk, IfErr};
ghost use Rattle.xti_io.specs.Faults.{Rose, HasCause};
ghost use Rattle.xti_io.specs.Sink.{Takes, TakesUpTo};
ghost use Rattle.xti_command.specs.declared.command.Command.{Command};
ghost use Rattle.xti_command.specs.Words.{AreTaken, IsPlain, NamesNone, command_of};
ghost use Rattle.xti_outputs.specs.Outputs.{limit_of};
ghost use Rattle.xti_run.specs.Program.{IsWhole, FailsToRead, IsUnread, IsWriteFault, HasNoAnswer, ReadsToLimit, ReadsWithin, IsRun, IsOutput, IsReader, IsWritten, IsWrittenOrOutOfMemory, IsCutOff, HasInput, IsDone, IsOutOfMemory, NoFault, refused_words, refused_size};

use std::alloc::{AllocError, Global};
use std::sync::Wait;
use std::thread::Threads;
use tpi_grammar::frames_law;
use xti_base::Octets;
use xti_base::limits::MOST_INPUT;
use xti_command::{Command, Reading, Words, WordsFail, plain_words_are_commands};
use xti_io::{ReadEnd, Sink, Source, WriteEnd, read_all, write_all};
use xti_outputs::limits::MOST_COPY;
use xti_outputs::{Answer, answer_to, generated_answer};
use xti_reasons::Reason;
use xti_script_reader::never_both;
use xti_step::Gate;

/// How a run of the program ends.
///
/// 0: done whole. 1: the words are no command. 2: the input is too long, or isn't in its form. 3: a worker of the
/// script is blocked at the end. 4: out of memory. 5: reading failed. 6: writing failed. 7: the journal isn't legal.
#[derive(Clone, Copy, Debug, PartialEq, Eq)]
pub struct Status(pub u8);

impl From<AllocError> for Status {
    ghost from_gives = { λ _ status. status.0 ≡ 4 };

    fn from(_error: AllocError) -> Status {
        Status(4)
    }
}

#[tactic(auto, unfolding(crate::specs::Program::refused_words))]
fn words_answer(alloc: Global) -> Result<Answer, AllocError>
    ensures { IfOk result (λ a. (a.status ≡ 1) × (a.text ≡ refused_words)) }
{
    Ok(Answer {
        status: 1,
        text: Octets::copy_of(alloc, b"refused words\n")?,
        reason: Reason::none(),
    })
}

#[tactic(auto, unfolding(crate::specs::Program::refused_size))]
fn size_answer(alloc: Global, most: usize) -> Result<Answer, AllocError>
    ensures { IfOk result (λ a. (a.status ≡ 2) × (a.text ≡ refused_size)) }
{
    Ok(Answer {
        status: 2,
        text: Octets::copy_of(alloc, b"refused size\n")?,
        reason: Reason::too_long(most),
    })
}

/// The most bytes of an input.
fn most_bytes(reading: Reading) -> usize
    ensures { result ≡ limit_of reading }
{
    match reading {
        Reading::Sock { .. } => MOST_COPY,
        _ => MOST_INPUT,
    }
}

/// What is answered to what the source has left.
fn answer_from<T: Threads + Wait + Sync, R: Source, G: Gate>(
    rt: &T,
    alloc: Global,
    reading: Reading,
    source: &mut R,
    gate: &G,
) -> Result<Answer, Status>
    ensures ok { IfOk result (λ a. IsRun reading (R.left source.old) a.status a.text) }
    ensures err { IfErr result (λ s. IsUnread s.0 (R.faults source.old) (R.faults source.new)) }
    ensures read { ReadsToLimit reading R.left source.old source.new }
    ensures later { R.faults source.old ≤ R.faults source.new }
{
    let most = most_bytes(reading);
    match read_all(alloc, source, most) {
        Ok(input) => Ok(answer_to(rt, alloc, reading, input, gate)?),
        Err(ReadEnd::TooLong) => Ok(size_answer(alloc, most)?),
        Err(ReadEnd::Fault) => Err(Status(5)),
        Err(ReadEnd::OutOfMemory) => Err(Status(4)),
    }
}

/// The answer to the words and what the source has left.
fn output<T: Threads + Wait + Sync, R: Source, G: Gate>(
    rt: &T,
    alloc: Global,
    words: &Words,
    source: &mut R,
    gate: &G,
) -> Result<Answer, Status>
    ensures ok { IfOk result (λ a. IsOutput words.now (R.left source.old) a.status a.text) }
    ensures err { IfErr result (λ s. HasNoAnswer R.faults words.now source.old source.new s.0) }
    ensures read { ReadsWithin words.now R.left source.old source.new }
    ensures unread { (IsReader words.now → ⊥) → source.new ≡ source.old }
    ensures taken { AreTaken words.now → IfOk result (λ a. a.status ≡ 1 → NamesNone words.now) }
{
    match words.command() {
        Ok(Command::Read(reading)) => answer_from(rt, alloc, reading, source, gate),
        Ok(Command::Gen { seed, summary }) => Ok(generated_answer(alloc, seed, summary)?),
        Err(WordsFail::Refused) => Ok(words_answer(alloc)?),
        Err(WordsFail::OutOfMemory) => Err(Status(4)),
    }
}

/// Hands over a text, and then tells the sink why the input is refused, where it is.
fn hand_over<W: Sink>(sink: &mut W, text: &[u8], reason: &Reason) -> Result<(), WriteEnd>
    ensures ok { OnOk result (Takes (W.held sink.old) (W.held sink.new) text.now) }
    ensures fault { IfErr result (λ e. TakesUpTo e (W.held sink.old) (W.held sink.new) text.now) }
    ensures cause { HasCause (W.faults sink.old) (W.faults sink.new) result }
{
    match write_all(sink, text) {
        Ok(()) if reason.as_bytes().is_empty() => Ok(()),
        Ok(()) => {
            sink.explain(reason.as_bytes());
            Ok(())
        }
        Err(end) => Err(end),
    }
}

/// Runs the command of the words over a source and a sink, and answers how it ended.
///
/// `replay` reads a script, makes the calls of its workers by turns, and writes the journal, or with `--summary` one line of
/// numbers; `run` does the same, but the calls are made by threads; `check` reads a journal, and writes `legal N` or its first
/// wrong line; `frames` reads TPI frames one after the other, and writes a line for each; `link` reads a link script, runs both
/// ends of the link over datagrams, and writes the report; `sock` reads any bytes, copies them from one socket to another, and
/// writes the journal or the line of numbers; `gen --seed N` reads nothing and writes the script that is generated from the
/// number, or with `--summary` makes its calls by turns and writes the line of numbers.
///
/// `run` makes worker 0's calls first, and then starts a thread for each other worker that has calls; at each step of theirs a
/// thread may be held by the gate. Where a thread can't be started, or out of memory stops one, the calls that are left are
/// made by turns. The order of the calls may differ from run to run. Whatever it is, what is written is one legal history:
/// each worker's calls stand in script order, each once; it ends only where each worker is finished or blocked; and what an
/// end of a connection received is a prefix of what the other sent.
///
/// The words are looked at first, then the source is read, and the whole text is made before the first write. Where an input is
/// too long, and where a script, a journal or a link script is refused, the sink is then told why, which no clause speaks of.
/// Only `run` makes threads, and all of them are finished when it returns; of the others `sock` alone may wait.
pub fn program<T: Threads + Wait + Sync, R: Source, W: Sink, G: Gate>(
    rt: &T,
    alloc: Global,
    words: &Words,
    source: &mut R,
    sink: &mut W,
    gate: &G,
) -> Status
    // Below 4 and with 7 the whole text was written: the journal of a legal run or its summary, the verdict on a
    // journal, the lines of the frames, the report of a link, the generated script, or why there are none.
    ensures written { IsWhole result.0
        → IsWritten words.now (R.left source.old) result.0 (W.held sink.old) (W.held sink.new) }
    ensures unwritten { (result.0 ≡ 4) ⊎ (result.0 ≡ 5) → W.held sink.new ≡ W.held sink.old }
    ensures cut_off { IsWriteFault result.0
        → IsCutOff words.now (R.left source.old) (W.held sink.old) (W.held sink.new) }

    // Faults are answered only where their count rose.
    ensures read_fault { result.0 ≡ 5 → FailsToRead R.faults words.now source.old source.new }
    ensures write_fault { IsWriteFault result.0 → Rose (W.faults sink.old) (W.faults sink.new) }
    ensures range { result.0 < 8 }
    ensures words { result.0 ≡ 1 → command_of words.now ≡ None }
    ensures taken { AreTaken words.now → result.0 ≡ 1 → NamesNone words.now }
    ensures plain { (command : Command) → IsPlain words.now command → result.0 ≢ 1 }

    // With no fault the whole text is written, or memory ran out.
    ensures settled { NoFault (R.faults source.old) (R.faults source.new)
        → NoFault (W.faults sink.old) (W.faults sink.new)
        → IsWrittenOrOutOfMemory words.now (R.left source.old) result.0 (W.held sink.old) (W.held sink.new) }
    ensures complete { (command : Command) → command_of words.now ≡ Some command
        → HasInput command (R.left source.old)
        → NoFault (R.faults source.old) (R.faults source.new)
        → NoFault (W.faults sink.old) (W.faults sink.new)
        → IsDone command result.0 ⊎ IsOutOfMemory result.0 }

    // What is read.
    ensures read { ReadsWithin words.now R.left source.old source.new }
    ensures unread { (IsReader words.now → ⊥) → source.new ≡ source.old }
{
    never_both();
    xti_journal::never_both();
    xti_gbn::never_both();
    frames_law();
    plain_words_are_commands();
    match output(rt, alloc, words, source, gate) {
        Err(status) => status,
        Ok(answer) => match hand_over(sink, answer.text.as_slice(), &answer.reason) {
            Ok(()) => Status(answer.status),
            Err(_) => Status(6),
        },
    }
}
