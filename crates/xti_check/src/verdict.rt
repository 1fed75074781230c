//! The verdict on a journal.

ghost use Rattle.std.specs.Prelude.{◌≡◌, [], None, IfOk};
ghost use Rattle.xti_journal.specs.Grammar.{HasText};
ghost use Rattle.xti_check.specs.Judging.{StandsAfter, JudgesEntries};
ghost use Rattle.xti_check.specs.Verdicts.{IsVerdict};

use crate::judging::Judge;
use std::alloc::{AllocError, Global};
use xti_base::{Octets, let_go};
use xti_journal_text::write_answer;
use xti_model::Journal;

/// What is said of a journal.
#[derive(Drop)]
pub enum Verdict {
    /// Each entry is what XTI gives there, and each stall line's step is blocked.
    Legal,
    /// The first line that is otherwise; the two texts differ.
    Wrong {
        /// Its number, from 1.
        line: u64,
        /// What should stand there.
        expected: Octets,
        /// What stands there.
        found: Octets,
    },
}

/// Judges the entries: the verdict where one is wrong.
fn judge_entries(judge: &mut Judge, journal: &Journal) -> Result<Option<Verdict>, AllocError>
    requires text { HasText journal.now }
    requires first { StandsAfter [] judge.old }
    requires same { judge.old.world.providers ≡ journal.now.providers }
    requires entries { judge.old.entries.now ≡ journal.now.entries }
    ensures { IfOk result (JudgesEntries journal.now judge.new) }
{
    let mut line = 5u64;
    let entries = journal.entries.as_slice();
    for place in 0..entries.len() {
        if let Some(expected) = judge.entry(place)? {
            let entry = &entries[place];
            let found = write_answer(judge.alloc, &entry.outcome, entry.after)?;
            return Ok(Some(Verdict::Wrong {
                line,
                expected,
                found,
            }));
        }
        line = line.saturating_add(1);
    }
    Ok(None)
}

/// Judges the stall lines, after entries that are right.
fn judge_stalls(judge: &mut Judge, journal: &Journal) -> Result<Verdict, AllocError>
    requires text { HasText journal.now }
    requires entries { JudgesEntries journal.now judge.old None }
    ensures { IfOk result (IsVerdict journal.now) }
{
    let entries = journal.entries.as_slice();
    let mut line = (entries.len() as u64).saturating_add(5);
    for stall in journal.stalls.as_slice() {
        if let Some(expected) = judge.stall(stall)? {
            let found = Octets::copy_of(judge.alloc, b"blocked")?;
            return Ok(Verdict::Wrong {
                line,
                expected,
                found,
            });
        }
        line = line.saturating_add(1);
    }
    Ok(Verdict::Legal)
}

/// Judges the entries, and the stall lines where these are right.
fn judge_journal(judge: &mut Judge, journal: &Journal) -> Result<Verdict, AllocError>
    requires text { HasText journal.now }
    requires first { StandsAfter [] judge.old }
    requires same { judge.old.world.providers ≡ journal.now.providers }
    requires entries { judge.old.entries.now ≡ journal.now.entries }
    ensures { IfOk result (IsVerdict journal.now) }
{
    match judge_entries(judge, journal) {
        Ok(Some(wrong)) => Ok(wrong),
        Ok(None) => judge_stalls(judge, journal),
        Err(fail) => Err(fail),
    }
}

/// Judges the journal, which is one that has a text; `Err` is out of memory. Stall lines that are left out are not missed.
pub fn check(alloc: Global, journal: &Journal) -> Result<Verdict, AllocError>
    requires { HasText journal.now }
    ensures { IfOk result (IsVerdict journal.now) }
{
    match Judge::new(alloc, &journal.providers, journal.entries.as_slice()) {
        Ok(mut judge) => {
            let verdict = judge_journal(&mut judge, journal);
            let_go(judge);
            verdict
        }
        Err(fail) => Err(fail),
    }
}
