//! The run of a script on one thread.

ghost use Rattle.std.specs.Prelude.{◌≡◌, IfOk};
ghost use Rattle.xti_model.specs.declared.script.Script.{Script};
ghost use Rattle.xti_model.specs.History.{Legal};
ghost use Rattle.xti_model.specs.Robin.{robin};
ghost use Rattle.xti_model.specs.Complete.{Follows, Each, workers, Complete};
ghost use Rattle.xti_check.specs.Verdicts.{IsLegal};
ghost use Rattle.xti_journal.specs.Grammar.{HasText as JournalHasText};
ghost use Rattle.xti_replay.specs.Few.{AreFew};
ghost use Rattle.xti_replay.specs.Playable.{IsPlayable};
ghost use Rattle.xti_replay.specs.Stalls.{stalls_of, StallsUnlessThrough};
ghost use Rattle.xti_script_reader.specs.Grammar.{HasText};
ghost use Rattle.xti_laws_streams.specs.Laws.{PrefixLaw, WaitingLaw, ReleaseLaw};

use std::alloc::{AllocError, Global};
use xti_laws_journals::{runs_make_journals, whole_runs_make_legal_journals};
use xti_laws_streams::scripts_keep_order;
use xti_model::{Journal, Script};
use xti_script_reader::{scripts_are_small, scripts_have_valid_providers, scripts_have_workers};

/// A script that has a text can be played.
pub(crate) fn texts_are_playable()
    ensures { (s : Script) → HasText s → IsPlayable s }
{
    scripts_have_valid_providers();
    scripts_have_workers();
    scripts_are_small();
}

/// The journal of the round-robin run of a script that has a text.
pub fn replay(alloc: Global, s: &Script) -> Result<Journal, AllocError>
    requires { HasText s.now }
    ensures entries { IfOk result (λ j. j.entries ≡ robin s.now) }
    ensures few { IfOk result (λ j. AreFew s.now j.entries) }
    ensures has_text { IfOk result JournalHasText }
    ensures judged { IfOk result IsLegal }
    ensures providers { IfOk result (λ j. j.providers ≡ s.now.providers) }
    ensures stalls { IfOk result (λ j. j.stalls ≡ stalls_of s.now) }
    ensures through { IfOk result (StallsUnlessThrough s.now.lines) }
    ensures legal { IfOk result (λ j. Legal s.now.providers j.entries) }
    ensures follows { IfOk result (λ j. Each (Follows j.entries s.now.lines) workers) }
    ensures complete { IfOk result (λ j. Complete s.now.providers j.entries s.now.lines) }
    ensures prefix { IfOk result (λ j. PrefixLaw s.now.providers j.entries) }
    ensures waiting { IfOk result (λ j. WaitingLaw s.now.providers j.entries) }
    ensures release { IfOk result (λ j. ReleaseLaw s.now.providers j.entries) }
{
    texts_are_playable();
    scripts_keep_order();
    runs_make_journals();
    whole_runs_make_legal_journals();
    xti_replay::replay(alloc, s)
}
