//! What a word has to be, and what is expected where it isn't that.

use crate::bounded::Reason;
use crate::places::{NOWHERE, Spot};
use std::alloc::Global;
use xti_gbn::MOST_BODY;
use xti_journal::{errno_in, event_in, event_or_none_in, limit_in, service_in, state_in, truth_in};
use xti_script_reader::Key;
use xti_words::{
    MOST_PIECES, Words, action_in, bytes_in, is_name, mode_in, number_in, options_in, provider_in,
};

/// What a word stands for. The first nine are those of scripts.
#[derive(Clone, Copy)]
pub(crate) enum Value {
    /// The name in the field with this key, which is of an endpoint or of a sequence number.
    Name(Key),
    Provider,
    Mode,
    Action,
    Bytes,
    Options,
    Number,
    Parts,
    Sizes,
    /// Bytes of a journal.
    Octets,
    /// Several of them, or none.
    OctetsList,
    /// Several numbers, or none.
    NumberList,
    Truth,
    Limit,
    Service,
    State,
    Event,
    EventOrNone,
    /// An error that stands alone.
    Errno,
    /// The body of a link's message.
    Body,
    /// Nothing: the texts don't have the field.
    Absent,
}

/// Whether the byte ends a piece of a word.
fn ends_piece(c: &u8) -> bool {
    *c == b','
}

/// What is expected of a name of an endpoint or of a sequence number, or of `-` for none.
fn wanted_name(spot: &Spot, key: Key, text: &[u8]) -> Option<&'static str> {
    let is_new = matches!(key, Key::NewEndpoint | Key::NewSequence);
    let is_defined = match key {
        Key::NewEndpoint | Key::Endpoint => spot.defines(b"open", false, text),
        _ => spot.defines(b"listen", true, text),
    };
    if is_new && !is_name(text) {
        return Some("a name, which is a letter a to z and at most 15 of a to z, 0 to 9 and _");
    }
    if is_defined != is_new {
        return None;
    }
    match key {
        Key::NewEndpoint | Key::NewSequence => Some("a name that no line above defines"),
        Key::Endpoint => Some("an endpoint that this worker or worker 0 opens above"),
        Key::Sequence => Some("a request for which this worker or worker 0 listens above"),
        _ if text == b"-".as_slice() => None,
        _ => Some("- or a request for which this worker or worker 0 listens above"),
    }
}

/// What is expected of a word of its own.
fn wanted_word(value: Value, text: &[u8]) -> Option<&'static str> {
    let (is_right, wanted) = match value {
        Value::Provider => (
            provider_in(text).is_some(),
            "ticots, ticotsord, ticlts or other",
        ),
        Value::Mode => (mode_in(text).is_some(), "block or nonblock"),
        Value::Action => (
            action_in(text).is_some(),
            "negotiate, check, default, current or a number",
        ),
        Value::Truth => (truth_in(text).is_some(), "0 or 1"),
        Value::Limit => (limit_in(text).is_some(), "a number of 32 bits, -1 or -2"),
        Value::Service => (service_in(text).is_some(), "1, 2 or 3"),
        Value::State => (state_in(text).is_some(), "the name of a state"),
        Value::Event => (event_in(text).is_some(), "the name of an event"),
        Value::EventOrNone => (
            event_or_none_in(text).is_some(),
            "the name of an event, or 0",
        ),
        Value::Errno => (errno_in(text).is_some(), "the name of an error"),
        _ => (
            number_in(text).is_some(),
            "a number of 32 bits without sign and leading zeros",
        ),
    };
    if is_right { None } else { Some(wanted) }
}

/// What is expected where the word stands for no bytes; how it begins tells which spelling was meant.
fn wanted_spelling(value: Value, text: &[u8]) -> &'static str {
    if text.starts_with(b"x:".as_slice()) {
        "pairs of the digits 0 to 9 and a to f after x:"
    } else if matches!(value, Value::Octets | Value::OctetsList) {
        "bytes after x:"
    } else if text.starts_with(b"t:".as_slice()) {
        "one or more of letters, digits, _, . and - after t:"
    } else if text.starts_with(b"f:".as_slice()) {
        "a number up to 65536 after f:"
    } else if !matches!(value, Value::Options) {
        "bytes after t:, x: or f:"
    } else if text.starts_with(b"o:".as_slice()) {
        "options LEVEL/NAME=VALUE or LEVEL/NAME after o:"
    } else {
        "bytes after t:, x: or f:, or options after o:"
    }
}

/// What is expected of a word that stands for bytes.
fn wanted_bytes(
    alloc: Global,
    value: Value,
    text: &[u8],
    reason: &mut Reason,
) -> Option<&'static str> {
    let read = match value {
        Value::Options => options_in(alloc, text),
        Value::Octets | Value::OctetsList if !text.starts_with(b"x:".as_slice()) => Ok(None),
        _ => bytes_in(alloc, text),
    };
    match read {
        Ok(Some(bytes)) => {
            if matches!(value, Value::Body) && bytes.as_slice().len() > MOST_BODY {
                Some("at most 512 bytes")
            } else {
                None
            }
        }
        Ok(None) => Some(wanted_spelling(value, text)),
        Err(_) => {
            reason.run_out();
            Some("")
        }
    }
}

/// What is expected of the first piece that is wrong, of those that commas separate. A script has at most so many.
fn wanted_pieces(
    alloc: Global,
    value: Value,
    text: &[u8],
    reason: &mut Reason,
) -> Option<&'static str> {
    let is_script = matches!(value, Value::Parts | Value::Sizes);
    let are_bytes = matches!(value, Value::Parts | Value::OctetsList);
    for (at, piece) in text.split(ends_piece).enumerate() {
        if is_script && at >= MOST_PIECES {
            return Some("at most 32 of them");
        }
        let wanted = if are_bytes {
            wanted_bytes(alloc, value, piece, reason)
        } else {
            wanted_word(value, piece)
        };
        if wanted.is_some() {
            return wanted;
        }
    }
    None
}

/// What is expected where the word stands; nothing where it is right.
pub(crate) fn wanted(
    alloc: Global,
    spot: &Spot,
    value: Value,
    text: &[u8],
    reason: &mut Reason,
) -> Option<&'static str> {
    match value {
        Value::Name(key) => wanted_name(spot, key, text),
        Value::Bytes | Value::Options | Value::Octets | Value::Body => {
            wanted_bytes(alloc, value, text, reason)
        }
        Value::OctetsList | Value::NumberList if text == b"none".as_slice() => None,
        Value::Parts | Value::Sizes | Value::OctetsList | Value::NumberList => {
            wanted_pieces(alloc, value, text, reason)
        }
        _ => wanted_word(value, text),
    }
}

/// Goes over words that stand for these: whether they are right. Of the first that isn't it says what was expected.
pub(crate) fn are_right(
    alloc: Global,
    values: &[Value],
    words: &mut Words,
    reason: &mut Reason,
) -> bool {
    for value in values {
        let word = words.next();
        if let Some(wanted) = wanted(alloc, &NOWHERE, *value, word.unwrap_or(b""), reason) {
            reason.expected(wanted, word);
            return false;
        }
    }
    true
}
