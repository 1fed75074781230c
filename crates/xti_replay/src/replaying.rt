//! Whole runs of scripts.

ghost use Rattle.std.specs.Prelude.{◌≡◌, ◌++◌, List, IfOk, OnOk};
ghost use Rattle.xti_model.specs.declared.entry.Entry.{Entry};
ghost use Rattle.xti_model.specs.declared.script.Script.{Script};
ghost use Rattle.xti_model.specs.History.{Legal};
ghost use Rattle.xti_model.specs.Robin.{robin};
ghost use Rattle.xti_model.specs.Complete.{Follows, Each, workers, Complete, IsHistoryOf};
ghost use Rattle.xti_replay.specs.Few.{AreFew};
ghost use Rattle.xti_replay.specs.Playable.{IsPlayable};
ghost use Rattle.xti_replay.specs.Runs.{last_stalls, IsRunOf, TakesAll};
ghost use Rattle.xti_replay.specs.Stalls.{gone_on, stalls_of, StallsUnlessThrough};

use crate::run::Run;
use std::alloc::{AllocError, Global};
use xti_base::let_go;
use xti_base::limits::MOST_STEPS;
use xti_model::{Entries, Journal, Script, robin_goes_on, robin_is_legal};

/// Adds the entries that follow these, to the end of the run.
fn take_entries(run: &mut Run, entries: &mut Entries) -> Result<(), AllocError>
    requires { (s : Script) × (all : List Entry) × IsRunOf s all entries.old run.old }
    ensures { OnOk result (TakesAll run.old run.new entries.old entries.new) }
{
    for _step in 0..MOST_STEPS {
        match run.next()? {
            None => return Ok(()),
            Some(entry) => entries.push(entry)?,
        }
    }
    Ok(())
}

/// The journal of a legal history of a script, with which its workers go on by turns: worker 0 alone until it is finished,
/// then the others, until each is finished or blocked.
pub fn go_on(alloc: Global, s: &Script, history: Entries) -> Result<Journal, AllocError>
    requires script { IsPlayable s.now }
    requires history { IsHistoryOf s.now.providers s.now.lines history }
    ensures entries { IfOk result (λ j. j.entries ≡ gone_on s.now history) }
    ensures providers { IfOk result (λ j. j.providers ≡ s.now.providers) }
    ensures stalls { IfOk result (λ j. j.stalls ≡ last_stalls s.now history) }
    ensures through { IfOk result (StallsUnlessThrough s.now.lines) }
    ensures legal { IfOk result (λ j. Legal s.now.providers j.entries) }
    ensures follows { IfOk result (λ j. Each (Follows j.entries s.now.lines) workers) }
    ensures complete { IfOk result (λ j. Complete s.now.providers j.entries s.now.lines) }
{
    robin_is_legal();
    robin_goes_on();
    let mut run = Run::after(alloc, s, history.as_slice())?;
    let mut entries = history;
    match take_entries(&mut run, &mut entries) {
        Err(fail) => {
            let_go(run);
            let_go(entries);
            Err(fail)
        }
        Ok(()) => match run.stalls() {
            Ok(stalls) => Ok(Journal {
                providers: s.providers,
                entries,
                stalls,
            }),
            Err(fail) => {
                let_go(entries);
                Err(fail)
            }
        },
    }
}

/// The journal of a script, whose workers take turns from its beginning on.
pub fn replay(alloc: Global, s: &Script) -> Result<Journal, AllocError>
    requires { IsPlayable s.now }
    ensures entries { IfOk result (λ j. j.entries ≡ robin s.now) }
    ensures providers { IfOk result (λ j. j.providers ≡ s.now.providers) }
    ensures stalls { IfOk result (λ j. j.stalls ≡ stalls_of s.now) }
    ensures through { IfOk result (StallsUnlessThrough s.now.lines) }
    ensures legal { IfOk result (λ j. Legal s.now.providers j.entries) }
    ensures follows { IfOk result (λ j. Each (Follows j.entries s.now.lines) workers) }
    ensures complete { IfOk result (λ j. Complete s.now.providers j.entries s.now.lines) }
    ensures few { IfOk result (λ j. AreFew s.now j.entries) }
{
    go_on(alloc, s, Entries::new(alloc))
}
