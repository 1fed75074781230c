//! Reading the lines after the head.

ghost use Rattle.std.specs.Prelude.{◌≡◌, ◌||◌, not, true, [], IfOk};
ghost use Rattle.xti_model.specs.Profile.{is_told};
ghost use Rattle.xti_words.specs.Texts.{words_of};
ghost use Rattle.xti_journal.specs.Reading.{stall_after, stalled_read, ended, Ended, may_follow, line_read, line_after, release_keys, release_values, profile_keys};
ghost use Rattle.xti_journal.specs.Unread.{IsRead, Reads, ReadsFields, ReadsValues};

use crate::draft::Draft;
use crate::fields::{Fields, Key};
use crate::lines::{is_number, read_entry, read_stall};
use std::alloc::Global;
use xti_base::{Prov, let_go};
use xti_model::{Act, Entry, Profile, StallLine, Version};
use xti_words::FieldFail;

/// A line after the head.
#[derive(Drop)]
pub(crate) enum Line {
    /// An entry, which is written where the caller has it.
    Entry,
    Stall(StallLine),
    /// The last line.
    End,
}

fn may_follow(before: Option<u32>, worker: u32) -> bool
    ensures { result ≡ may_follow before worker }
{
    match before {
        None => true,
        Some(before) => 0 < before && before < worker,
    }
}

/// The stall line whose words after the first these are, where it may stand after those that were read. Its act is written in
/// this place first.
#[inline(always)]
fn read_next_stall(
    draft: &Draft,
    fields: &mut Fields,
    act: &mut Act,
) -> Result<StallLine, FieldFail>
    ensures { IsRead stalled_read (stall_after draft.now fields.old.words) result }
{
    let stall = read_or_end!(read_stall(draft, fields, act));
    if may_follow(draft.last_worker(), stall.worker) {
        Ok(stall)
    } else {
        let_go(stall);
        Err(FieldFail::Wrong)
    }
}

/// The line that the words are after those that were read; an entry is written.
#[tactic(auto, unfolding(crate::specs::Reading::line_in))]
fn read_words(draft: &Draft, fields: &mut Fields, entry: &mut Entry) -> Result<Line, FieldFail>
    ensures { IsRead (line_read entry.new) (line_after draft.now fields.old.words) result }
{
    match fields.word() {
        Some(b"end") => match read_end(draft.count(), fields) {
            Ok(()) => Ok(Line::End),
            Err(fail) => Err(fail),
        },
        Some(b"stall") => match read_next_stall(draft, fields, &mut entry.act) {
            Ok(stall) => Ok(Line::Stall(stall)),
            Err(fail) => Err(fail),
        },
        Some(word) if draft.last_worker().is_none() => {
            match read_entry(draft.count() as u64 + 1, draft, word, fields, entry) {
                Ok(()) => Ok(Line::Entry),
                Err(fail) => Err(fail),
            }
        }
        _ => Err(FieldFail::Wrong),
    }
}

/// Reads the last line, whose first word was taken.
fn read_end(count: usize, fields: &mut Fields) -> Result<(), FieldFail>
    ensures { IsRead (λ _. Ended) (ended count fields.old.words) result }
{
    match fields.word() {
        Some(word) if is_number(word, count as u64) && fields.are_read() => Ok(()),
        _ => Err(FieldFail::Wrong),
    }
}

/// The line that the text is after those that were read; an entry is written.
pub(crate) fn read_line(
    alloc: Global,
    draft: &Draft,
    text: &[u8],
    entry: &mut Entry,
) -> Result<Line, FieldFail>
    ensures { IsRead (line_read entry.new) (line_after draft.now (words_of text.now)) result }
{
    read_words(draft, &mut Fields::of(alloc, text), entry)
}

/// The fields of the line of a provider: the last of them tells whether data may go with a release, where the line tells it.
fn profile_keys(told: bool) -> &'static [Key]
    ensures { result.now ≡ profile_keys told }
{
    if told {
        &[
            Key::Tsdu,
            Key::SendZero,
            Key::SameAddr,
            Key::SndBuf,
            Key::RcvBuf,
            Key::RelData,
        ]
    } else {
        &[
            Key::Tsdu,
            Key::SendZero,
            Key::SameAddr,
            Key::SndBuf,
            Key::RcvBuf,
        ]
    }
}

/// Whether data may go with a release, where the line tells it; none may where it doesn't.
#[tactic(auto, unfolding(crate::specs::Fields::field))]
fn read_release(told: bool, fields: &mut Fields) -> bool
    requires { fields.old.keys.now ≡ release_keys told }
    ensures read { Reads (release_values told result) fields.old fields.new }
    ensures keys { fields.new.keys.now ≡ [] }
    ensures untold { (told || not result) ≡ true }
{
    if told { fields.truth() } else { false }
}

/// The values that the words of a provider's line after its name are.
#[tactic(auto, using(crate::proofs::Ended::before_none), unfolding(crate::specs::Fields::field))]
fn read_values(told: bool, fields: &mut Fields) -> Result<Profile, FieldFail>
    ensures read { ReadsFields told fields.old.words result }
    ensures untold { IfOk result (λ p. (told || not p.reldata) ≡ true) }
{
    fields.expect(profile_keys(told));
    let profile = Profile {
        tsdu: fields.limit(),
        sendzero: fields.truth(),
        same_addr: fields.truth(),
        sndbuf: fields.number(),
        rcvbuf: fields.number(),
        reldata: read_release(told, fields),
    };
    match fields.end_line() {
        Ok(()) => Ok(profile),
        Err(fail) => Err(fail),
    }
}

/// The values of the provider in a head of the version.
#[tactic(auto, unfolding(crate::specs::Reading::profile_in))]
pub(crate) fn read_profile(
    alloc: Global,
    version: Version,
    prov: Prov,
    text: &[u8],
) -> Result<Profile, FieldFail>
    ensures read { ReadsValues version prov (words_of text.now) result }
    ensures told { IfOk result (λ p. is_told version prov p ≡ true) }
{
    let mut fields = Fields::of(alloc, text);
    if !fields.accept(b"provider") || !fields.accept(prov.name().as_bytes()) {
        return Err(FieldFail::Wrong);
    }
    read_values(version.tells_reldata(prov), &mut fields)
}
