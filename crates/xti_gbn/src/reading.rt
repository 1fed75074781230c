//! Reading a link script.

ghost use Rattle.std.specs.Prelude.{◌≡◌, ◌∷◌, ◌≤◌, ◌<◌, [], length, All, IfOk, IfErr, IfSome, IfNone};
ghost use Rattle.xti_words.specs.Texts.{lines_of};
ghost use Rattle.xti_words.specs.Values.{bytes_in};
ghost use Rattle.xti_gbn.specs.declared.events.TheConstants.{MOST_EVENTS};
ghost use Rattle.xti_gbn.specs.Events.{IsSmallEvent};
ghost use Rattle.xti_gbn.specs.Reading.{BeginsWith, event_behind};
ghost use Rattle.xti_gbn.specs.Grammar.{header, offer_of, event_of, event_in, IsLinkScript};
ghost use Rattle.xti_gbn.specs.Refused.{IsRefusedAt, IsBad};

use crate::{Events, LinkEvent, MOST_BODY, MOST_EVENTS};
use std::alloc::{AllocError, Global};
use thiserror::Error;
use xti_words::{Words, bytes_in, first_line, number_in};

/// The first line of a link script.
const HEADER: &[u8] = b"xti-link 1";

/// Why a text is not read.
#[derive(Debug, Drop, Clone, Copy, PartialEq, Eq, Error)]
pub enum LinkFail {
    /// The line with this number, counted from 1, is not in its form.
    #[error("line {line} is not that of a link script")]
    Bad {
        /// The number of the line.
        line: u64,
    },
    /// Memory ran out.
    #[error("out of memory")]
    OutOfMemory,
}

impl From<AllocError> for LinkFail {
    ghost use Rattle.std.specs.Prelude.{◌≡◌};
    ghost use Rattle.xti_gbn.specs.declared.reading.LinkFail.TheVariants.{OutOfMemory};

    ghost from_gives = { λ _ e. e ≡ OutOfMemory };

    fn from(_error: AllocError) -> LinkFail {
        LinkFail::OutOfMemory
    }
}

/// An offer of the bytes that a word stands for.
fn offer_in(alloc: Global, word: &[u8]) -> Result<Option<LinkEvent>, AllocError>
    ensures { IfOk result (λ event. event ≡ offer_of (bytes_in word.now)) }
{
    match bytes_in(alloc, word)? {
        Some(body) if body.as_slice().len() <= MOST_BODY => Ok(Some(LinkEvent::Offer(body))),
        _ => Ok(None),
    }
}

/// The event of a line of two words.
fn event_with(alloc: Global, word: &[u8], value: &[u8]) -> Result<Option<LinkEvent>, AllocError>
    ensures { IfOk result (λ event. event ≡ event_of (word.now ∷ value.now ∷ [])) }
{
    if word == b"offer".as_slice() {
        offer_in(alloc, value)
    } else if word == b"data".as_slice() {
        Ok(number_in(value).map(LinkEvent::Data))
    } else if word == b"ack".as_slice() {
        Ok(number_in(value).map(LinkEvent::Ack))
    } else {
        Ok(None)
    }
}

/// The event that a line is.
#[tactic(auto, unfolding(crate::specs::Grammar::event_in))]
fn event_in(alloc: Global, line: &[u8]) -> Result<Option<LinkEvent>, AllocError>
    ensures { IfOk result (λ event. event ≡ event_in line.now) }
{
    let mut words = Words::of(line);
    let Some(word) = words.next() else {
        return Ok(None);
    };
    let Some(value) = words.next() else {
        return Ok((word == b"timeout".as_slice()).then_some(LinkEvent::Timeout));
    };
    if words.is_empty() {
        event_with(alloc, word, value)
    } else {
        Ok(None)
    }
}

/// The event that a line is, after so many others.
fn event_behind(alloc: Global, before: usize, line: &[u8]) -> Result<Option<LinkEvent>, AllocError>
    ensures { IfOk result (λ event. event ≡ event_behind before line.now) }
{
    if before < MOST_EVENTS {
        event_in(alloc, line)
    } else {
        Ok(None)
    }
}

/// The first line of a text and what is after its LF; `None` where it has none.
fn ended_line(text: &[u8]) -> Option<(&[u8], &[u8])>
    requires { 0 < length text.now }
    ensures found { IfSome result (λ parts. BeginsWith text.now parts.0.now parts.1.now) }
    ensures none { IfNone result (lines_of text.now ≡ text.now ∷ []) }
{
    let (line, behind) = first_line(text);
    if line.len() < text.len() {
        Some((line, behind))
    } else {
        None
    }
}

/// What is after the first line of a link script; `None` where the text has no such line.
fn behind_header(text: &[u8]) -> Option<&[u8]>
    ensures found { IfSome result (λ rest. BeginsWith text.now header rest.now) }
    ensures none { IfNone result (IsRefusedAt text.now 1) }
{
    if text.is_empty() {
        return None;
    }
    let (line, behind) = ended_line(text)?;
    (line == HEADER).then_some(behind)
}

/// The events of a link script: a first line, and at most 10,000 lines of events, each ended with LF. `Bad` tells the first line by
/// which the text is none.
pub fn read_link(alloc: Global, text: &[u8]) -> Result<Events, LinkFail>
    ensures found { IfOk result (λ events. IsLinkScript events text.now) }
    ensures few { IfOk result (λ events. length events ≤ MOST_EVENTS) }
    ensures small { IfOk result (λ events. All IsSmallEvent events) }
    ensures bad { IfErr result (IsBad text.now) }
{
    let Some(behind) = behind_header(text) else {
        return Err(LinkFail::Bad { line: 1 });
    };
    let mut events = Events::new(alloc);
    let mut rest = behind;
    while !rest.is_empty() {
        let number = events.len() as u64 + 2;
        let Some((line, behind)) = ended_line(rest) else {
            return Err(LinkFail::Bad { line: number });
        };
        let Some(event) = event_behind(alloc, events.len(), line)? else {
            return Err(LinkFail::Bad { line: number });
        };
        events.push(event)?;
        rest = behind;
    }
    Ok(events)
}
