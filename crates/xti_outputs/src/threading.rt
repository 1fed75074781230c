//! The run of a script by threads.

ghost use Rattle.std.specs.Prelude.{◌≡◌, IfOk};
ghost use Rattle.xti_model.specs.declared.script.Script.{Script};
ghost use Rattle.xti_model.specs.History.{Legal};
ghost use Rattle.xti_model.specs.Complete.{Follows, Each, workers, Complete};
ghost use Rattle.xti_check.specs.Verdicts.{IsLegal};
ghost use Rattle.xti_journal.specs.Grammar.{HasText as JournalHasText};
ghost use Rattle.xti_replay.specs.Few.{AreFew};
ghost use Rattle.xti_replay.specs.Stalls.{stalls_after, StallsUnlessThrough};
ghost use Rattle.xti_script_reader.specs.Grammar.{HasText};
ghost use Rattle.xti_laws_streams.specs.Laws.{PrefixLaw, WaitingLaw, ReleaseLaw};

use crate::round_robin::texts_are_playable;
use std::alloc::{AllocError, Global};
use std::sync::Wait;
use std::thread::Threads;
use xti_laws_journals::{
    runs_have_few_entries, runs_make_journals, whole_runs_make_legal_journals,
};
use xti_laws_streams::scripts_keep_order;
use xti_model::{Journal, Script};
use xti_replay::go_on;
use xti_step::Gate;
use xti_threads::play;

/// The journal of a script that has a text, whose calls are made by threads: worker 0's first, then each other worker's in a
/// thread of its own. At each step a thread may be held by the gate.
///
/// Where a thread can't be started, or out of memory stops one, the calls that are left are made by turns. The order of the
/// calls may differ from run to run; the clauses hold of each.
pub fn run<G: Gate, R: Threads + Wait + Sync>(
    rt: &R,
    alloc: Global,
    s: &Script,
    gate: &G,
) -> Result<Journal, AllocError>
    requires { HasText s.now }
    ensures few { IfOk result (λ j. AreFew s.now j.entries) }
    ensures has_text { IfOk result JournalHasText }
    ensures judged { IfOk result IsLegal }
    ensures providers { IfOk result (λ j. j.providers ≡ s.now.providers) }
    ensures stalls { IfOk result (λ j. j.stalls ≡ stalls_after s.now.lines j.entries) }
    ensures through { IfOk result (StallsUnlessThrough s.now.lines) }
    ensures legal { IfOk result (λ j. Legal s.now.providers j.entries) }
    ensures follows { IfOk result (λ j. Each (Follows j.entries s.now.lines) workers) }
    ensures complete { IfOk result (λ j. Complete s.now.providers j.entries s.now.lines) }
    ensures prefix { IfOk result (λ j. PrefixLaw s.now.providers j.entries) }
    ensures waiting { IfOk result (λ j. WaitingLaw s.now.providers j.entries) }
    ensures release { IfOk result (λ j. ReleaseLaw s.now.providers j.entries) }
{
    texts_are_playable();
    scripts_keep_order();
    runs_have_few_entries();
    runs_make_journals();
    whole_runs_make_legal_journals();
    let history = play(rt, alloc, s, gate)?;
    go_on(alloc, s, history)
}
