//! The judgement of an input.

ghost use Rattle.std.specs.Prelude.{◌≡◌, ◌++◌, length, IfOk, OnOk};
ghost use Rattle.xti_model.specs.declared.script.Journal.{Journal};
ghost use Rattle.xti_journal.specs.Grammar.{HasText, IsJournal};
ghost use Rattle.xti_check.specs.Judgements.{legal_text, wrong_text, IsJudgement, IsOfJournal};
ghost use Rattle.xti_check.specs.Verdicts.{IsVerdict};

use crate::verdict::{Verdict, check};
use std::alloc::{AllocError, Global};
use xti_base::{Octets, let_go};
use xti_journal::{JournalFail, read_journal};
use xti_model::Journal;
use xti_words::{put_number, put_text};

/// What is said of an input.
#[derive(Drop)]
pub enum Judgement {
    /// It is a legal journal: `legal N`, N the number of its entries.
    Legal { text: Octets },
    /// It is a journal with a wrong line: `wrong line L`, `expected TEXT` and `found TEXT`, each on a line.
    Wrong { text: Octets },
    /// It is no journal; the first line by which it isn't, from 1.
    Refused { line: u64 },
}

#[tactic(auto, unfolding(crate::specs::Judgements::legal_text))]
fn legal_text(alloc: Global, count: u64) -> Result<Octets, AllocError>
    ensures { IfOk result (λ text. text ≡ legal_text count) }
{
    let mut out = Vec::new(alloc);
    put_number(&mut out, "legal ", count).and(put_text(&mut out, "\n"))?;
    Ok(Octets::from_vec(out))
}

#[tactic(auto, unfolding(crate::specs::Judgements::wrong_text))]
fn wrong_text(
    alloc: Global,
    line: u64,
    expected: &Octets,
    found: &Octets,
) -> Result<Octets, AllocError>
    ensures { IfOk result (λ text. text ≡ wrong_text line expected.now found.now) }
{
    let mut out = Vec::new(alloc);
    put_number(&mut out, "wrong line ", line)
        .and(put_text(&mut out, "\nexpected "))
        .and(out.extend_from_slice(expected.as_slice()))
        .and(put_text(&mut out, "\nfound "))
        .and(out.extend_from_slice(found.as_slice()))
        .and(put_text(&mut out, "\n"))?;
    Ok(Octets::from_vec(out))
}

/// What is said of a journal with so many entries, of which this is the verdict.
fn judgement_of(alloc: Global, count: u64, verdict: &Verdict) -> Result<Judgement, AllocError>
    ensures { IfOk result (λ said.
        (j : Journal) → count ≡ length j.entries → IsVerdict j verdict.now → IsOfJournal j said) }
{
    match verdict {
        Verdict::Legal => match legal_text(alloc, count) {
            Ok(text) => Ok(Judgement::Legal { text }),
            Err(fail) => Err(fail),
        },
        Verdict::Wrong {
            line,
            expected,
            found,
        } => match wrong_text(alloc, *line, expected, found) {
            Ok(text) => Ok(Judgement::Wrong { text }),
            Err(fail) => Err(fail),
        },
    }
}

/// Judges the journal.
fn judge_journal(alloc: Global, journal: &Journal) -> Result<Judgement, AllocError>
    requires { HasText journal.now }
    ensures { IfOk result (IsOfJournal journal.now) }
{
    match check(alloc, journal) {
        Ok(verdict) => {
            let said = judgement_of(alloc, journal.entries.len() as u64, &verdict);
            let_go(verdict);
            said
        }
        Err(fail) => Err(fail),
    }
}

/// Reads the input as a journal and judges it; `Err` is out of memory.
pub fn judge(alloc: Global, input: &[u8]) -> Result<Judgement, AllocError>
    // What is said is right.
    ensures said { IfOk result (IsJudgement input.now) }
    // A journal is judged as its verdict says, and never refused.
    ensures only { (j : Journal) → IsJournal j input.now → IfOk result (IsOfJournal j) }
{
    match read_journal(alloc, input) {
        Ok(journal) => {
            let said = judge_journal(alloc, &journal);
            let_go(journal);
            said
        }
        Err(JournalFail::Bad { line }) => Ok(Judgement::Refused { line }),
        Err(JournalFail::OutOfMemory) => Err(AllocError),
    }
}
