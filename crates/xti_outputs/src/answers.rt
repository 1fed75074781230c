//! What each command answers.

ghost use Rattle.std.specs.Prelude.{◌≡◌, ◌≤◌, IfOk, OnOk, length, ◌==◌, true};
ghost use Rattle.xti_model.specs.declared.script.Script.{Script};
ghost use Rattle.xti_model.specs.declared.entry.Entry.{Entry};
ghost use Rattle.std.specs.List.{list_all};
ghost use Rattle.xti_model.specs.Complete.{IsHistoryOf, is_worker};
ghost use Rattle.xti_script_reader.specs.Grammar.{HasText};
ghost use Rattle.xti_outputs.specs.Entries.{IsOfSomeScript, ReportsMore, ReportsAll};
ghost use Rattle.xti_outputs.specs.Outputs.{IsRunFrom, IsThreaded, IsRefusedBy, IsAnswered, IsPlayed, IsGenerated, refused_line, refused_byte, limit_of, status_with};

use crate::report::Report;
use crate::round_robin::texts_are_playable;
use std::alloc::{AllocError, Global};
use std::sync::Wait;
use std::thread::Threads;
use xti_base::limits::MOST_STEPS;
use xti_base::{Octets, let_go};
use xti_check::{Judgement, judge};
use xti_command::Reading;
use xti_copy::copy;
use xti_frames::{FramesFail, show_frames};
use xti_gbn::{LinkFail, read_link, show_link};
use xti_laws_journals::{
    legal_journals_keep_order, runs_have_few_entries, runs_make_journals,
    whole_runs_make_legal_journals,
};
use xti_laws_streams::{
    copies_are_legal, copies_copy_their_input, copies_make_their_calls, scripts_keep_order,
};
use xti_laws_texts::copies_have_texts;
use xti_model::{Entry, Providers, Script, Stalls, robin_goes_on, robin_is_legal};
use xti_reasons::{Kind, Reason, reason};
use xti_replay::Run;
use xti_script::{generate, generated_scripts_have_texts, write_script};
use xti_script_reader::{ScriptFail, read_script};
use xti_step::Gate;
use xti_threads::play;

/// A status, and what is written before it; why the input is refused, where it is.
#[derive(Drop)]
pub struct Answer {
    /// How the run of the command ends.
    pub status: u8,
    /// What is written before it does.
    pub text: Octets,
    /// Why the input is refused; none where it isn't.
    pub reason: Reason,
}

#[tactic(auto, unfolding(crate::specs::Outputs::refused_line))]
fn line_text(alloc: Global, line: u64) -> Result<Octets, AllocError>
    ensures { IfOk result (λ text. text ≡ refused_line line) }
{
    let text = format!(in alloc; "refused line {line}\n")?;
    Ok(Octets::from_vec(text.into_bytes()))
}

#[tactic(auto, unfolding(crate::specs::Outputs::refused_byte))]
fn byte_text(alloc: Global, at: usize) -> Result<Octets, AllocError>
    ensures { IfOk result (λ text. text ≡ refused_byte at) }
{
    let text = format!(in alloc; "refused byte {at}\n")?;
    Ok(Octets::from_vec(text.into_bytes()))
}

/// The status with which a journal with these stall lines comes: 3 where there are any.
fn journal_status(stalls: &Stalls) -> u8
    ensures { result ≡ status_with (length stalls.now == 0) }
{
    if stalls.is_empty() { 0 } else { 3 }
}

/// Reports the entries of a history.
fn report_history(report: &mut Report, history: &[Entry]) -> Result<(), AllocError>
    requires { list_all is_worker history.now ≡ true }
    ensures { OnOk result (ReportsMore report.old history.now report.new) }
{
    for entry in history {
        report.add(entry)?;
    }
    Ok(())
}

/// Reports the entries of a run to its end.
fn report_entries(run: &mut Run, report: &mut Report) -> Result<(), AllocError>
    requires { IsOfSomeScript run.old }
    ensures { OnOk result (ReportsAll run.old run.new report.old report.new) }
{
    for _step in 0..MOST_STEPS {
        run.step()?;
        match run.made() {
            None => return Ok(()),
            Some(entry) => report.add(entry)?,
        }
    }
    Ok(())
}

/// What is answered to a script that has a text, and to a history of it with which its workers go on by turns: the journal or
/// the summary of all. The journal is written in the room of bytes that are done with.
fn whole_run(
    alloc: Global,
    summary: bool,
    script: &Script,
    history: &[Entry],
    room: Octets,
) -> Result<Answer, AllocError>
    requires text { HasText script.now }
    requires history { IsHistoryOf script.now.providers script.now.lines history.now }
    ensures { IfOk result (λ a. IsRunFrom summary script.now history.now a.status a.text) }
{
    texts_are_playable();
    robin_is_legal();
    robin_goes_on();
    scripts_keep_order();
    runs_have_few_entries();
    runs_make_journals();
    whole_runs_make_legal_journals();
    let mut report = Report::begin(summary, room, &script.providers)?;
    or_drop!(report_history(&mut report, history), report);
    let mut run = or_drop!(Run::after(alloc, script, history), report);
    or_drop!(report_entries(&mut run, &mut report), run, report);
    let stalls = or_drop!(run.stalls(), report);
    let status = journal_status(&stalls);
    let text = report.end(alloc, &stalls);
    let_go(stalls);
    Ok(Answer {
        status,
        text: text?,
        reason: Reason::none(),
    })
}

/// What is answered to a script that has a text, whose workers take turns.
fn played(alloc: Global, summary: bool, script: &Script, room: Octets) -> Result<Answer, AllocError>
    requires { HasText script.now }
    ensures { IfOk result (λ a. IsPlayed summary script.now a.status a.text) }
{
    whole_run(alloc, summary, script, &[], room)
}

/// What is answered to a script that has a text, whose workers are threads; what these leave undone is done by turns.
fn threaded<T: Threads + Wait + Sync, G: Gate>(
    rt: &T,
    alloc: Global,
    summary: bool,
    script: &Script,
    gate: &G,
    room: Octets,
) -> Result<Answer, AllocError>
    requires { HasText script.now }
    ensures { IfOk result (λ a. IsThreaded summary script.now a.status a.text) }
{
    texts_are_playable();
    let history = play(rt, alloc, script, gate)?;
    whole_run(alloc, summary, script, history.as_slice(), room)
}

/// What is answered to an input that is no valid script.
fn refused_script(alloc: Global, script: &[u8], fail: ScriptFail) -> Result<Answer, AllocError>
    ensures { IfOk result (λ a. IsRefusedBy fail a.status a.text) }
{
    match fail {
        ScriptFail::Bad { line } => {
            let text = line_text(alloc, line)?;
            Ok(Answer {
                status: 2,
                text,
                reason: reason(alloc, Kind::Script, script, line),
            })
        }
        ScriptFail::TooMany { line } => {
            let text = line_text(alloc, line)?;
            Ok(Answer {
                status: 2,
                text,
                reason: reason(alloc, Kind::Script, script, line),
            })
        }
        ScriptFail::OutOfMemory => Err(AllocError),
    }
}

/// What `replay` answers to an input within the limit.
fn replay_answer(alloc: Global, summary: bool, input: Octets) -> Result<Answer, AllocError>
    ensures { IfOk result (λ a. IsAnswered (Reading.Replay summary) input a.status a.text) }
{
    match read_script(alloc, input.as_slice()) {
        Ok(script) => played(alloc, summary, &script, input),
        Err(fail) => refused_script(alloc, input.as_slice(), fail),
    }
}

/// What `run` answers to an input within the limit.
fn run_answer<T: Threads + Wait + Sync, G: Gate>(
    rt: &T,
    alloc: Global,
    summary: bool,
    input: Octets,
    gate: &G,
) -> Result<Answer, AllocError>
    ensures { IfOk result (λ a. IsAnswered (Reading.Run summary) input a.status a.text) }
{
    match read_script(alloc, input.as_slice()) {
        Ok(script) => threaded(rt, alloc, summary, &script, gate, input),
        Err(fail) => refused_script(alloc, input.as_slice(), fail),
    }
}

/// What `gen` answers: the generated script, or the summary of its run.
pub fn generated_answer(alloc: Global, seed: u64, summary: bool) -> Result<Answer, AllocError>
    ensures { IfOk result (λ a. IsGenerated seed summary a.status a.text) }
{
    generated_scripts_have_texts();
    let script = generate(alloc, seed)?;
    if summary {
        return played(alloc, summary, &script, Octets::new(alloc));
    }
    let text = write_script(alloc, &script)?;
    Ok(Answer {
        status: 0,
        text,
        reason: Reason::none(),
    })
}

/// What `check` answers to an input within the limit.
fn check_answer(alloc: Global, input: &[u8]) -> Result<Answer, AllocError>
    ensures { IfOk result (λ a. IsAnswered Reading.Check input.now a.status a.text) }
{
    legal_journals_keep_order();
    match judge(alloc, input)? {
        Judgement::Legal { text } => Ok(Answer {
            status: 0,
            text,
            reason: Reason::none(),
        }),
        Judgement::Wrong { text } => Ok(Answer {
            status: 7,
            text,
            reason: Reason::none(),
        }),
        Judgement::Refused { line } => {
            let text = line_text(alloc, line)?;
            Ok(Answer {
                status: 2,
                text,
                reason: reason(alloc, Kind::Journal, input, line),
            })
        }
    }
}

/// What `frames` answers to an input within the limit.
fn frames_answer(alloc: Global, input: &[u8]) -> Result<Answer, AllocError>
    ensures { IfOk result (λ a. IsAnswered Reading.Frames input.now a.status a.text) }
{
    match show_frames(alloc, input) {
        Ok(text) => Ok(Answer {
            status: 0,
            text,
            reason: Reason::none(),
        }),
        Err(FramesFail::WrongByte { at }) => {
            let text = byte_text(alloc, at)?;
            Ok(Answer {
                status: 2,
                text,
                reason: Reason::none(),
            })
        }
        Err(FramesFail::OutOfMemory) => Err(AllocError),
    }
}

/// What `link` answers to an input within the limit.
fn link_answer(alloc: Global, input: &[u8]) -> Result<Answer, AllocError>
    ensures { IfOk result (λ a. IsAnswered Reading.Link input.now a.status a.text) }
{
    match read_link(alloc, input) {
        Ok(events) => {
            let text = show_link(alloc, &events)?;
            Ok(Answer {
                status: 0,
                text,
                reason: Reason::none(),
            })
        }
        Err(LinkFail::Bad { line }) => {
            let text = line_text(alloc, line)?;
            Ok(Answer {
                status: 2,
                text,
                reason: reason(alloc, Kind::Link, input, line),
            })
        }
        Err(LinkFail::OutOfMemory) => Err(AllocError),
    }
}

/// What `sock` answers to an input within the limit. The journal is written in the room of bytes that are done with.
fn sock_answer<R: Wait + Sync>(
    rt: &R,
    alloc: Global,
    summary: bool,
    input: Octets,
) -> Result<Answer, AllocError>
    requires { length input ≤ limit_of (Reading.Sock summary) }
    ensures { IfOk result (λ a. IsAnswered (Reading.Sock summary) input a.status a.text) }
{
    copies_make_their_calls();
    copies_are_legal();
    copies_copy_their_input();
    copies_have_texts();
    let history = or_drop!(copy(rt, alloc, input.as_slice()), input);
    let mut report = or_drop!(Report::begin(summary, input, &Providers::usual()), history);
    let reported = report_history(&mut report, history.as_slice());
    let_go(history);
    or_drop!(reported, report);
    let stalls = Stalls::new(alloc);
    let text = report.end(alloc, &stalls);
    let_go(stalls);
    Ok(Answer {
        status: 0,
        text: text?,
        reason: Reason::none(),
    })
}

/// What a command that reads answers to an input within its limit. Only `run` makes threads, and all of them are finished when it
/// returns.
pub fn answer_to<T: Threads + Wait + Sync, G: Gate>(
    rt: &T,
    alloc: Global,
    reading: Reading,
    input: Octets,
    gate: &G,
) -> Result<Answer, AllocError>
    requires { length input ≤ limit_of reading }
    ensures { IfOk result (λ a. IsAnswered reading input a.status a.text) }
{
    match reading {
        Reading::Replay { summary } => replay_answer(alloc, summary, input),
        Reading::Run { summary } => run_answer(rt, alloc, summary, input, gate),
        Reading::Check => check_answer(alloc, input.as_slice()),
        Reading::Frames => frames_answer(alloc, input.as_slice()),
        Reading::Link => link_answer(alloc, input.as_slice()),
        Reading::Sock { summary } => sock_answer(rt, alloc, summary, input),
    }
}
