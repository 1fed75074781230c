//! Reading a journal.

ghost use Rattle.std.specs.Prelude.{◌≡◌, ◌++◌, [], true, IfOk, IfErr, IfSome, IfNone};
ghost use Rattle.xti_journal_text.specs.JournalText.{head_text};
ghost use Rattle.xti_model.specs.declared.script.Journal.{Journal};
ghost use Rattle.xti_journal.specs.declared.journal_text.JournalFail.TheVariants.{OutOfMemory};
ghost use Rattle.xti_journal.specs.Grammar.{IsJournal};
ghost use Rattle.xti_journal.specs.Head.{valid_profile, valid_head, fail_at, ReadsFirst, ReadsProvider, ReadsHead};
ghost use Rattle.xti_journal.specs.Line.{IsCut, IsLine};
ghost use Rattle.xti_words.specs.Texts.{words_of};
ghost use Rattle.xti_journal.specs.Read.{IsReadAs, IsBad, ReadsInto, ReadsText, ReadsNext};

use crate::body::{Line, read_line, read_profile};
use crate::draft::Draft;
use memchr::memchr;
use std::alloc::{AllocError, Global};
use std::mem;
use thiserror::Error;
use xti_base::{Prov, State, let_go};
use xti_model::{Act, Entry, Journal, Outcome, Profile, Providers, Reply, Version};
use xti_words::FieldFail;

/// Why a text was not read.
#[derive(Clone, Copy, Debug, PartialEq, Eq, Error)]
pub enum JournalFail {
    /// The text is no journal; the first line by which it isn't, from 1.
    #[error("the text is no journal from line {line} on")]
    Bad { line: u64 },
    /// Out of memory.
    #[error("out of memory")]
    OutOfMemory,
}

impl From<AllocError> for JournalFail {
    ghost from_gives = { λ _ e. e ≡ OutOfMemory };

    fn from(_e: AllocError) -> JournalFail {
        JournalFail::OutOfMemory
    }
}

/// The first line, which LF ends, and what is after the LF; `None` where there is no LF.
fn take_line(text: &[u8]) -> Option<(&[u8], &[u8])>
    ensures some { IfSome result (λ cut. IsCut text.now cut.0.now cut.1.now) }
    ensures none { IfNone result (IsLine text.now) }
{
    match memchr(b'\n', text) {
        Some(end) => Some((&text[..end], &text[end + 1..])),
        None => None,
    }
}

/// An entry to be written over.
fn blank_entry() -> Entry {
    Entry {
        worker: 0,
        act: Act::More,
        outcome: Outcome::Done(Reply::Plain),
        after: State::T_UNINIT,
    }
}

/// Reads a line after the head, and adds it; false where it is the last line. An entry is written in `next` first.
fn read_next(
    alloc: Global,
    draft: &mut Draft,
    next: &mut Entry,
    line: &[u8],
) -> Result<bool, FieldFail>
    ensures { ReadsNext draft.old (words_of line.now) draft.new result }
{
    match read_line(alloc, draft, line, next) {
        Ok(Line::Entry) => {
            draft.add_entry(mem::replace(next, blank_entry()))?;
            Ok(true)
        }
        Ok(Line::Stall(stall)) => {
            draft.add_stall(stall)?;
            Ok(true)
        }
        Ok(Line::End) => Ok(false),
        Err(fail) => Err(fail),
    }
}

/// Reads the lines after the head into the draft, which has none yet. An entry is written in `next` first.
fn read_lines(
    alloc: Global,
    draft: &mut Draft,
    next: &mut Entry,
    text: &[u8],
) -> Result<(), JournalFail>
    requires head { valid_head draft.old.providers ≡ true }
    requires first { draft.old
        ≡ record { providers = draft.old.providers; entries = []; stalls = [] } }
    ensures { ReadsInto (head_text draft.old.providers ++ text.now) draft.new result }
{
    let mut rest = text;
    let mut number = 5u64;
    while !rest.is_empty() {
        let Some((line, behind)) = take_line(rest) else {
            return Err(JournalFail::Bad { line: number });
        };
        match read_next(alloc, draft, next, line) {
            Ok(true) => {}
            Ok(false) if behind.is_empty() => return Ok(()),
            Ok(false) => return Err(JournalFail::Bad { line: number + 1 }),
            Err(fail) => return Err(fail_at(number, fail)),
        }
        rest = behind;
        number += 1;
    }
    Err(JournalFail::Bad { line: number })
}

/// Reads the lines after the head.
fn read_body(alloc: Global, providers: Providers, text: &[u8]) -> Result<Journal, JournalFail>
    requires { valid_head providers ≡ true }
    ensures { ReadsText (head_text providers ++ text.now) result }
{
    let mut next = blank_entry();
    let mut draft = Draft::new(alloc, providers);
    let read = read_lines(alloc, &mut draft, &mut next, text);
    let_go(next);
    match read {
        Ok(()) => Ok(draft.finish()),
        Err(fail) => {
            let_go(draft);
            Err(fail)
        }
    }
}

/// Whether the values are within the bounds of the provider.
fn valid_profile(prov: Prov, profile: Profile) -> bool
    ensures { result ≡ valid_profile prov profile }
{
    let usual = Providers::usual();
    let providers = match prov {
        Prov::Ticots => Providers {
            ticots: profile,
            ..usual
        },
        Prov::Ticotsord => Providers {
            ticotsord: profile,
            ..usual
        },
        Prov::Ticlts => Providers {
            ticlts: profile,
            ..usual
        },
        Prov::Other => return false,
    };
    providers.valid()
}

/// Reads the line of the provider in a head of the version.
fn read_provider<'a>(
    alloc: Global,
    version: Version,
    prov: Prov,
    text: &'a [u8],
) -> Result<(Profile, &'a [u8]), FieldFail>
    ensures { ReadsProvider version prov text.now result }
{
    let Some((line, rest)) = take_line(text) else {
        return Err(FieldFail::Wrong);
    };
    match read_profile(alloc, version, prov, line) {
        Ok(profile) if valid_profile(prov, profile) => Ok((profile, rest)),
        Ok(_) => Err(FieldFail::Wrong),
        Err(fail) => Err(fail),
    }
}

/// Why a line was not read, as why the text was not.
fn fail_at(line: u64, fail: FieldFail) -> JournalFail
    ensures { result ≡ fail_at line fail }
{
    match fail {
        FieldFail::Wrong => JournalFail::Bad { line },
        FieldFail::OutOfMemory => JournalFail::OutOfMemory,
    }
}

/// Reads the first line, which tells the version.
#[tactic(auto, unfolding(xti_journal_text::specs::JournalText::first_line))]
fn read_first(text: &[u8]) -> Result<(Version, &[u8]), FieldFail>
    ensures { ReadsFirst text.now result }
{
    if text.starts_with(b"xti-journal 1\n".as_slice()) {
        Ok((Version::One, &text[14..]))
    } else if text.starts_with(b"xti-journal 2\n".as_slice()) {
        Ok((Version::Two, &text[14..]))
    } else {
        Err(FieldFail::Wrong)
    }
}

/// Reads the head: the first line, and the values of the providers.
fn read_head(alloc: Global, text: &[u8]) -> Result<(Providers, &[u8]), JournalFail>
    ensures { ReadsHead text.now result }
{
    let (version, rest) = match read_first(text) {
        Ok(read) => read,
        Err(fail) => return Err(fail_at(1, fail)),
    };
    let (ticots, rest) = match read_provider(alloc, version, Prov::Ticots, rest) {
        Ok(read) => read,
        Err(fail) => return Err(fail_at(2, fail)),
    };
    let (ticotsord, rest) = match read_provider(alloc, version, Prov::Ticotsord, rest) {
        Ok(read) => read,
        Err(fail) => return Err(fail_at(3, fail)),
    };
    let (ticlts, rest) = match read_provider(alloc, version, Prov::Ticlts, rest) {
        Ok(read) => read,
        Err(fail) => return Err(fail_at(4, fail)),
    };
    let providers = Providers {
        version,
        ticots,
        ticotsord,
        ticlts,
    };
    Ok((providers, rest))
}

/// The journal whose text this is. Errors: `Bad` where there is none, with the first line by which the text is no journal;
/// `OutOfMemory` where memory runs out.
pub fn read_journal(alloc: Global, text: &[u8]) -> Result<Journal, JournalFail>
    // What is read is a journal with this text.
    ensures found { IfOk result (λ j. IsJournal j text.now) }
    // A journal is read, unless memory runs out.
    ensures only { (j : Journal) → IsJournal j text.now → IsReadAs result j }
    // A refused line is the first by which the text is no journal.
    ensures bad { IfErr result (IsBad text.now) }
{
    match read_head(alloc, text) {
        Ok((providers, rest)) => read_body(alloc, providers, rest),
        Err(fail) => Err(fail),
    }
}
