//! The lines of a journal.

ghost use Rattle.std.specs.Prelude.{◌≡◌, ◌++◌, OnOk, IfOk};
ghost use Rattle.std.specs.List.{flat_map};
ghost use Rattle.xti_journal_text.specs.JournalText.{profile_text, release_text, provider_text, first_line, head_text, answer_text, answer_end, entry_text, entries_text, stall_text, end_text, journal_text};

use crate::calls::put_act;
use crate::replies::put_outcome;
use crate::words::{put_bit, put_limit, put_state};
use std::alloc::{AllocError, Global};
use xti_base::{Octets, Prov, State};
use xti_model::{Entry, Journal, Outcome, Profile, Providers, StallLine, Version};
use xti_words::{put_number, put_text};

// A line with few data has no more bytes, so that its room is taken once.
const USUAL_LINE: usize = 256;

fn put_profile(out: &mut Vec<u8>, p: &Profile) -> Result<(), AllocError>
    ensures { OnOk result (out.new.items ≡ out.old.items ++ profile_text p.now) }
{
    put_limit(out, " tsdu=", p.tsdu)
        .and(put_bit(out, " sendzero=", p.sendzero))
        .and(put_bit(out, " same_addr=", p.same_addr))
        .and(put_number(out, " sndbuf=", p.sndbuf as u64))
        .and(put_number(out, " rcvbuf=", p.rcvbuf as u64))
}

// Whether data may go with an orderly release, where texts of the version say so of the provider.
fn put_release(
    out: &mut Vec<u8>,
    version: Version,
    prov: Prov,
    p: &Profile,
) -> Result<(), AllocError>
    ensures { OnOk result (out.new.items ≡ out.old.items ++ release_text version prov p.now) }
{
    if version.tells_reldata(prov) {
        put_bit(out, " reldata=", p.reldata)
    } else {
        Ok(())
    }
}

#[tactic(auto, unfolding(crate::specs::JournalText::provider_text))]
fn put_provider(
    out: &mut Vec<u8>,
    version: Version,
    prov: Prov,
    p: &Profile,
) -> Result<(), AllocError>
    ensures { OnOk result (out.new.items ≡ out.old.items ++ provider_text version prov p.now) }
{
    put_text(out, "provider ")?;
    put_text(out, prov.name())?;
    put_profile(out, p)?;
    put_release(out, version, prov, p)?;
    put_text(out, "\n")
}

#[tactic(auto, unfolding(crate::specs::JournalText::first_line))]
fn put_first_line(out: &mut Vec<u8>, version: Version) -> Result<(), AllocError>
    ensures { OnOk result (out.new.items ≡ out.old.items ++ first_line version) }
{
    match version {
        Version::One => put_text(out, "xti-journal 1\n"),
        Version::Two => put_text(out, "xti-journal 2\n"),
    }
}

#[tactic(auto, unfolding(crate::specs::JournalText::head_text))]
pub(crate) fn put_head(out: &mut Vec<u8>, p: &Providers) -> Result<(), AllocError>
    ensures { OnOk result (out.new.items ≡ out.old.items ++ head_text p.now) }
{
    put_first_line(out, p.version)
        .and(put_provider(out, p.version, Prov::Ticots, &p.ticots))
        .and(put_provider(out, p.version, Prov::Ticotsord, &p.ticotsord))
        .and(put_provider(out, p.version, Prov::Ticlts, &p.ticlts))
}

// What a call answered and the state of its endpoint, after an arrow, to the end of the line.
fn put_answer(out: &mut Vec<u8>, outcome: &Outcome, after: State) -> Result<(), AllocError>
    ensures { OnOk result (out.new.items ≡ out.old.items ++ answer_end outcome.now after) }
{
    put_outcome(out, outcome).and(put_state(out, after))
}

#[tactic(auto, unfolding(crate::specs::JournalText::entry_text))]
pub(crate) fn put_entry(out: &mut Vec<u8>, n: u64, e: &Entry) -> Result<(), AllocError>
    ensures { OnOk result (out.new.items ≡ out.old.items ++ entry_text n e.now) }
{
    put_number(out, "", n)
        .and(put_number(out, " ", e.worker as u64))
        .and(put_act(out, &e.act))
        .and(put_answer(out, &e.outcome, e.after))
}

fn put_entries(out: &mut Vec<u8>, entries: &[Entry]) -> Result<(), AllocError>
    ensures { OnOk result (out.new.items ≡ out.old.items ++ entries_text 1 entries.now) }
{
    let mut n = 0u64;
    for e in entries {
        n = n.saturating_add(1);
        put_entry(out, n, e)?;
    }
    Ok(())
}

#[tactic(auto, unfolding(crate::specs::JournalText::stall_text))]
fn put_stall(out: &mut Vec<u8>, s: &StallLine) -> Result<(), AllocError>
    ensures { OnOk result (out.new.items ≡ out.old.items ++ stall_text s.now) }
{
    put_number(out, "stall ", s.worker as u64)
        .and(put_act(out, &s.act))
        .and(put_text(out, "\n"))
}

pub(crate) fn put_stalls(out: &mut Vec<u8>, stalls: &[StallLine]) -> Result<(), AllocError>
    ensures { OnOk result (out.new.items ≡ out.old.items ++ flat_map stall_text stalls.now) }
{
    for s in stalls {
        put_stall(out, s)?;
    }
    Ok(())
}

#[tactic(auto, unfolding(crate::specs::JournalText::end_text))]
pub(crate) fn put_end(out: &mut Vec<u8>, count: u64) -> Result<(), AllocError>
    ensures { OnOk result (out.new.items ≡ out.old.items ++ end_text count) }
{
    put_number(out, "end ", count).and(put_text(out, "\n"))
}

#[tactic(auto, unfolding(crate::specs::JournalText::journal_text))]
fn put_journal(out: &mut Vec<u8>, j: &Journal) -> Result<(), AllocError>
    ensures { OnOk result (out.new.items ≡ out.old.items ++ journal_text j.now) }
{
    put_head(out, &j.providers)
        .and(put_entries(out, j.entries.as_slice()))
        .and(put_stalls(out, j.stalls.as_slice()))
        .and(put_end(out, j.entries.len() as u64))
}

/// The text of a journal; `Err` is out of memory.
pub fn write_journal(alloc: Global, j: &Journal) -> Result<Octets, AllocError>
    ensures { IfOk result (λ text. text ≡ journal_text j.now) }
{
    let mut out = Vec::new(alloc);
    put_journal(&mut out, j)?;
    Ok(Octets::from_vec(out))
}

/// The line of the entry with this number, with its LF; `Err` is out of memory.
pub fn write_entry(alloc: Global, n: u64, e: &Entry) -> Result<Octets, AllocError>
    ensures { IfOk result (λ text. text ≡ entry_text n e.now) }
{
    let mut out = Vec::with_capacity(alloc, USUAL_LINE)?;
    put_entry(&mut out, n, e)?;
    Ok(Octets::from_vec(out))
}

/// The text of what a call answered and of the state of its endpoint; `Err` is out of memory.
pub fn write_answer(alloc: Global, outcome: &Outcome, after: State) -> Result<Octets, AllocError>
    ensures { IfOk result (λ text. text ≡ answer_text outcome.now after) }
{
    let mut out = Vec::new(alloc);
    put_answer(&mut out, outcome, after)?;
    // Without the arrow before it and the LF after it.
    let end = out.len() - 1;
    Octets::copy_of(alloc, &out[4..end])
}
