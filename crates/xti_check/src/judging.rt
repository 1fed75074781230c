//! Judging a journal, line by line.

ghost use Rattle.std.specs.Prelude.{◌≡◌, ◌≤◌, ◌<◌, true, [], length, Some, IfOk};
ghost use Rattle.xti_base.specs.declared.limits.TheConstants.{LAST_WORKER};
ghost use Rattle.xti_model.specs.declared.entry.Entry.{Entry};
ghost use Rattle.xti_model.specs.Profile.{valid};
ghost use Rattle.xti_journal_text.specs.JournalText.{answer_text};
ghost use Rattle.xti_laws_texts.specs.Texts.{AreNumbers};
ghost use Rattle.xti_check.specs.Judging.{StandsAfter, HaveWorkers, JudgesPlace, JudgesLine, Compares};
ghost use Rattle.xti_check.specs.Verdicts.{wanted_act};

use crate::going::{Part, begun_at, going_of, left_after, made_by};
use crate::same::same_outcome;
use std::alloc::{AllocError, Global};
use xti_base::limits::WORKERS;
use xti_base::{Octets, State, let_go};
use xti_core::World;
use xti_journal_text::write_answer;
use xti_model::{Act, Applied, Entry, Outcome, Providers, StallLine};

/// A judge of a journal, after the lines that were right.
#[derive(Drop)]
pub(crate) struct Judge<'a> {
    pub(crate) alloc: Global,
    /// The entries of the journal.
    entries: &'a [Entry],
    pub(crate) world: World,
    /// The call of each worker that is part way.
    pub(crate) parts: [Option<Part>; WORKERS],
}

/// What should stand there.
fn wanted(alloc: Global, text: &[u8]) -> Result<Option<Octets>, AllocError>
    ensures { IfOk result (λ wanted. wanted ≡ Some text.now) }
{
    match Octets::copy_of(alloc, text) {
        Ok(text) => Ok(Some(text)),
        Err(fail) => Err(fail),
    }
}

/// What should stand in place of an act that doesn't go with the worker's call.
fn wanted_act(alloc: Global, act: &Act) -> Result<Option<Octets>, AllocError>
    ensures { IfOk result (λ wanted. wanted ≡ Some (wanted_act act.now)) }
{
    match act {
        Act::Begin(_) => wanted(alloc, b"more"),
        Act::More => wanted(alloc, b"no unfinished call"),
    }
}

/// The text of the outcome, which is let go, and of the state.
fn told(alloc: Global, outcome: Outcome, after: State) -> Result<Option<Octets>, AllocError>
    ensures copy { IfOk result (λ text. text ≡ Some (answer_text outcome after)) }
    ensures numbers { IfOk result (λ _. AreNumbers outcome) }
{
    let text = write_answer(alloc, &outcome, after);
    let_go(outcome);
    match text {
        Ok(text) => Ok(Some(text)),
        Err(fail) => Err(fail),
    }
}

/// `None` where the entry has this outcome and this state; else their text.
fn compare(
    alloc: Global,
    outcome: Outcome,
    after: State,
    entry: &Entry,
) -> Result<Option<Octets>, AllocError>
    ensures { IfOk result (Compares outcome after entry.now) }
{
    if after.is(entry.after) && same_outcome(&outcome, &entry.outcome) {
        let_go(outcome);
        return Ok(None);
    }
    told(alloc, outcome, after)
}

impl<'a> Judge<'a> {
    /// A judge before all these entries.
    pub(crate) fn new(
        alloc: Global,
        p: &Providers,
        entries: &'a [Entry],
    ) -> Result<Judge<'a>, AllocError>
        requires { valid p.now ≡ true }
        ensures stands { IfOk result (λ judge. StandsAfter [] judge) }
        ensures providers { IfOk result (λ judge. judge.world.providers ≡ p.now) }
        ensures entries { IfOk result (λ judge. judge.entries.now ≡ entries.now) }
    {
        Ok(Judge {
            alloc,
            entries,
            world: World::fresh(alloc, p)?,
            parts: [None; WORKERS],
        })
    }

    /// `None` where the entry at this place is the step of its call; else what should stand there, and the judge has done its
    /// work.
    pub(crate) fn entry(&mut self, place: usize) -> Result<Option<Octets>, AllocError>
        requires place { place < length self.old.entries.now }
        requires worker { HaveWorkers self.old.entries.now }
        ensures judged { IfOk result (JudgesPlace place self.old self.new) }
        ensures providers { self.new.world.providers ≡ self.old.world.providers }
        ensures entries { self.new.entries.now ≡ self.old.entries.now }
    {
        let entry = &self.entries[place];
        let worker = entry.worker as usize;
        let part = self.parts[worker];
        let Some(going) = made_by(going_of(self.entries, part), &entry.act) else {
            return wanted_act(self.alloc, &entry.act);
        };
        match self.world.step(going.call, going.go) {
            Ok(Applied::Blocked) => wanted(self.alloc, b"blocked"),
            Ok(Applied::Step { outcome, after }) => {
                let begun = begun_at(part, &entry.act, place);
                self.parts[worker] = left_after(begun, &entry.outcome);
                compare(self.alloc, outcome, after, entry)
            }
            Err(fail) => Err(fail),
        }
    }

    /// `None` where the step of the stall line is blocked; else what should stand there, and the judge has done its work.
    pub(crate) fn stall(&mut self, stall: &StallLine) -> Result<Option<Octets>, AllocError>
        requires { stall.now.worker ≤ LAST_WORKER }
        ensures judged { IfOk result (λ wanted. JudgesLine stall.now self.old self.new wanted) }
        ensures providers { self.new.world.providers ≡ self.old.world.providers }
        ensures entries { self.new.entries.now ≡ self.old.entries.now }
    {
        let part = self.parts[stall.worker as usize];
        let Some(going) = made_by(going_of(self.entries, part), &stall.act) else {
            return wanted_act(self.alloc, &stall.act);
        };
        match self.world.step(going.call, going.go) {
            Ok(Applied::Blocked) => Ok(None),
            Ok(Applied::Step { outcome, after }) => told(self.alloc, outcome, after),
            Err(fail) => Err(fail),
        }
    }
}
