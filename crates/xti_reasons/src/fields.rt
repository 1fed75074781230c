//! A call and its fields, one after the other.

use crate::bounded::Reason;
use crate::places::{Place, Spot, ends_line, is_word, number_of};
use crate::values::{Value, wanted};
use memchr::memchr;
use std::alloc::Global;
use xti_base::limits::LAST_WORKER;
use xti_model::Version;
use xti_script_reader::{Key, Verb, form};
use xti_words::Words;

/// What the texts are whose calls these are.
#[derive(Clone, Copy)]
pub(crate) enum Form {
    /// Scripts have names, and fields may be left out.
    Script,
    /// Journals have numbers, and each field.
    Journal,
}

/// A call, and where it stands.
#[derive(Clone, Copy)]
pub(crate) struct CallAt<'a> {
    pub(crate) form: Form,
    pub(crate) verb: Verb,
    pub(crate) spot: Spot<'a>,
}

/// What the texts have in the field.
fn value_of(form: Form, key: Key) -> Value {
    let (in_scripts, in_journals) = match key {
        Key::NewEndpoint | Key::NewSequence => (Value::Name(key), Value::Absent),
        Key::Endpoint | Key::Sequence | Key::SequenceOrNone => (Value::Name(key), Value::Number),
        Key::Provider => (Value::Provider, Value::Provider),
        Key::Mode | Key::ModeOrBlock => (Value::Mode, Value::Mode),
        Key::Action => (Value::Action, Value::Number),
        Key::Addr | Key::UData | Key::Data => (Value::Bytes, Value::Octets),
        Key::Opt => (Value::Options, Value::Octets),
        Key::Parts => (Value::Parts, Value::OctetsList),
        Key::Sizes => (Value::Sizes, Value::NumberList),
        Key::Qlen | Key::Flags | Key::Max | Key::Amax | Key::Pmax | Key::Omax | Key::Umax => {
            (Value::Number, Value::Number)
        }
    };
    match form {
        Form::Script => in_scripts,
        Form::Journal => in_journals,
    }
}

/// The name of a key: what stands before its sign.
pub(crate) fn name_of(key: &[u8]) -> &[u8] {
    match key {
        [name @ .., _] => name,
        [] => key,
    }
}

impl<'a> CallAt<'a> {
    fn may_be_left_out(&self, key: Key) -> bool {
        matches!(self.form, Form::Script) && key.may_be_left_out()
    }

    /// Adds the names of the fields that may stand next: those that may be left out, and the one after them.
    fn put_next(&self, open: &[Key], reason: &mut Reason) {
        if open.is_empty() {
            reason.put("the end of the line");
        }
        for (at, key) in open.iter().enumerate() {
            let is_last = !self.may_be_left_out(*key) || at.saturating_add(1) == open.len();
            if at > 0 {
                reason.put(if is_last { " or " } else { ", " });
            }
            reason.put_all(name_of(key.word()));
            if is_last {
                return;
            }
        }
    }

    /// Says that the word isn't one of these fields, of which one may stand next.
    pub(crate) fn misplaced(&self, open: &[Key], word: &[u8], reason: &mut Reason) {
        reason.about(self.verb.word());
        let name = match memchr(b'=', word) {
            Some(at) => &word[..at],
            None => &[],
        };
        if name.is_empty() {
            reason.put("expected ");
            self.put_next(open, reason);
            reason.put_found(Some(word));
            return;
        }
        let mut known = false;
        for key in form(self.verb) {
            known |= name == name_of(key.word());
        }
        reason.put(if known {
            "misplaced field "
        } else {
            "unknown field "
        });
        reason.put_quoted(name);
        reason.put(", expected ");
        self.put_next(open, reason);
    }

    /// Says that this was expected as the value of the field, and another was found, or none.
    fn wrong(&self, key: Key, wanted: &str, found: Option<&[u8]>, reason: &mut Reason) {
        reason.about(self.verb.word());
        let name = name_of(key.word());
        match found {
            _ if name.is_empty() => reason.expected(wanted, found),
            None => {
                reason.put("field ");
                reason.put_quoted(name);
                reason.put(" is missing");
            }
            Some(value) => {
                reason.about(name);
                reason.expected_value(wanted, value);
            }
        }
    }
}

/// Goes over the words of a call's fields: which were left out behind the last that stands there. Nothing where one is wrong;
/// of the first that is it says what was expected.
fn go_over(
    alloc: Global,
    call: &CallAt,
    words: &mut Words,
    reason: &mut Reason,
) -> Option<&'static [Key]> {
    let mut open = form(call.verb);
    let mut rest = open;
    while let Some((key, others)) = rest.split_first() {
        rest = others;
        let value = value_of(call.form, *key);
        if let Value::Absent = value {
            open = others;
            continue;
        }
        let word = words.first();
        let text = match word {
            Some(word) => word.strip_prefix(key.word()),
            None => None,
        };
        if text.is_none() {
            if call.may_be_left_out(*key) {
                continue;
            }
            if let Some(word) = word {
                call.misplaced(open, word, reason);
                return None;
            }
        }
        // No word is empty, so what is expected of one is expected of any.
        if let Some(wanted) = wanted(alloc, &call.spot, value, text.unwrap_or(b""), reason) {
            call.wrong(*key, wanted, text, reason);
            return None;
        }
        words.next();
        open = others;
    }
    Some(open)
}

/// The call that the word is in texts of the version; where it is none, that is said.
fn find_verb(version: Version, word: Option<&[u8]>, reason: &mut Reason) -> Option<Verb> {
    let text = word.unwrap_or(b"");
    let verb = Verb::of_word(version, text);
    if verb.is_some() {
        return verb;
    }
    if text.is_empty() {
        reason.expected("a call", word);
        return None;
    }
    reason.put("unknown call ");
    reason.put_quoted(text);
    if Verb::of_word(Version::Two, text).is_some() {
        reason.put(", which version 2 has");
    }
    let behind = text.strip_prefix(b"t_".as_slice()).unwrap_or(b"");
    if let Some(verb) = Verb::of_word(version, behind) {
        reason.put(", expected ");
        reason.put_all(verb.word());
    }
    None
}

/// The call that the worker began last; where there is none, that is said.
fn last_verb(version: Version, spot: &Spot, reason: &mut Reason) -> Option<Verb> {
    let mut last = None;
    for line in spot.earlier.split(ends_line) {
        let mut words = Words::of(line);
        words.next();
        if number_of(words.next()) == Some(spot.worker) {
            last = Verb::of_word(version, words.next().unwrap_or(b"")).or(last);
        }
    }
    if last.is_none() {
        reason.put("more: no step above begins a call of worker ");
        reason.put_number(spot.worker);
    }
    last
}

/// Goes over the worker of the line at that place, its call and the call's fields: which call that is, and which fields were
/// left out behind the last that stands there. Nothing where one is wrong, which is then said.
pub(crate) fn find_call<'a>(
    alloc: Global,
    form: Form,
    place: &Place<'a>,
    words: &mut Words,
    reason: &mut Reason,
) -> Option<(CallAt<'a>, &'static [Key])> {
    let word = words.next();
    let worker = match number_of(word) {
        Some(worker) if worker <= LAST_WORKER as u64 => worker,
        _ => {
            reason.expected("a worker from 0 to 32", word);
            return None;
        }
    };
    let spot = Spot {
        earlier: place.earlier,
        worker,
    };
    let word = words.next();
    if matches!(form, Form::Journal) && is_word(word, "more") {
        let verb = last_verb(place.version, &spot, reason)?;
        return Some((CallAt { form, verb, spot }, &[]));
    }
    let verb = find_verb(place.version, word, reason)?;
    let call = CallAt { form, verb, spot };
    let open = go_over(alloc, &call, words, reason)?;
    Some((call, open))
}
