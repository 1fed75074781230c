//! Why a journal is refused.

use crate::answers::answer_values;
use crate::bounded::Reason;
use crate::fields::{Form, find_call, name_of};
use crate::places::{NOWHERE, Past, Place, is_word, number_of};
use crate::profiles::{wanted_setting, wrong_value};
use crate::scripts::first_line;
use crate::values::{Value, are_right, wanted};
use std::alloc::Global;
use xti_base::Prov;
use xti_model::Version;
use xti_verbs::Answer;
use xti_words::{Words, number_in};

/// Whether a journal begins with this line.
fn is_first(line: &[u8]) -> bool {
    line == b"xti-journal 1".as_slice() || line == b"xti-journal 2".as_slice()
}

/// The keys of a provider's line with their signs, and what stands behind each. The last stands only where texts tell it.
static SETTINGS: [(&[u8], Value); 6] = [
    (b"tsdu=", Value::Limit),
    (b"sendzero=", Value::Truth),
    (b"same_addr=", Value::Truth),
    (b"sndbuf=", Value::Number),
    (b"rcvbuf=", Value::Number),
    (b"reldata=", Value::Truth),
];

/// The number that a value of a provider is.
fn signed_number(text: &[u8]) -> i64 {
    if text == b"-1".as_slice() {
        -1
    } else if text == b"-2".as_slice() {
        -2
    } else {
        number_in(text).unwrap_or(0) as i64
    }
}

/// Goes over the values of a provider's line in a journal of the version.
fn profile_values(
    alloc: Global,
    version: Version,
    prov: Prov,
    words: &mut Words,
    reason: &mut Reason,
) {
    let count = if version.tells_reldata(prov) { 6 } else { 5 };
    let mut tsdu = 1;
    for (key, value) in SETTINGS.iter().take(count) {
        let name = name_of(*key);
        let word = words.next();
        let Some(text) = word.unwrap_or(b"").strip_prefix(*key) else {
            reason.about(prov.name().as_bytes());
            reason.put("expected ");
            reason.put_all(name);
            reason.put_found(word);
            return;
        };
        if let Some(wanted) = wanted(alloc, &NOWHERE, *value, text, reason) {
            wrong_value(prov, name, wanted, reason);
            reason.put_found(Some(text));
            return;
        }
        let number = signed_number(text);
        if let Some(wanted) = wanted_setting(prov, name, number, tsdu) {
            wrong_value(prov, name, wanted, reason);
            return;
        }
        if name == b"tsdu".as_slice() {
            tsdu = number;
        }
    }
    reason.about(prov.name().as_bytes());
    reason.expected("the end of the line", words.next());
}

fn profile_line(alloc: Global, prov: Prov, place: &Place, reason: &mut Reason) {
    let mut words = Words::of(place.line);
    let word = words.next();
    if !is_word(word, "provider") {
        reason.expected("provider", word);
        return;
    }
    let name = words.next();
    if name != Some(prov.name().as_bytes()) {
        reason.about(b"provider");
        reason.expected(prov.name(), name);
        return;
    }
    profile_values(alloc, place.version, prov, &mut words, reason);
}

/// What stands behind `err`, whose word was taken.
fn error_values(words: &mut Words) -> &'static [Value] {
    let word = words.first();
    if is_word(word, "TLOOK") {
        words.next();
        &[Value::Event]
    } else if is_word(word, "TBUFOVFLW") {
        words.next();
        &[Value::Number]
    } else {
        &[Value::Errno]
    }
}

/// Goes over the answer behind the arrow, and the state.
fn answer_words(alloc: Global, answer: Answer, words: &mut Words, reason: &mut Reason) {
    let word = words.next();
    let values = if is_word(word, "ok") {
        answer_values(answer)
    } else if is_word(word, "err") {
        error_values(words)
    } else if is_word(word, "part") {
        &[Value::Number]
    } else {
        reason.expected("ok, err or part", word);
        return;
    };
    if are_right(alloc, values, words, reason) && are_right(alloc, &[Value::State], words, reason) {
        reason.expected("the end of the line", words.next());
    }
}

/// Goes over a step, whose number was taken.
fn step_words(alloc: Global, place: &Place, words: &mut Words, reason: &mut Reason) {
    let Some((call, _)) = find_call(alloc, Form::Journal, place, words, reason) else {
        return;
    };
    reason.about(call.verb.word());
    let word = words.next();
    if is_word(word, "=>") {
        reason.about(b"answer");
        answer_words(alloc, call.verb.answer(), words, reason);
    } else {
        reason.expected("=>", word);
    }
}

/// Goes over a stall line, whose first word was taken.
fn stall_words(alloc: Global, place: &Place, words: &mut Words, reason: &mut Reason) {
    reason.about(b"stall");
    let Some((call, _)) = find_call(alloc, Form::Journal, place, words, reason) else {
        return;
    };
    let word = words.next();
    if word.is_some() {
        reason.about(call.verb.word());
        reason.expected("the end of the line", word);
    } else {
        reason.put("worker 0 stalls alone, others stall in the order of their numbers");
    }
}

/// Says what was expected in a line `end` behind so many steps.
fn end_words(steps: u64, words: &mut Words, reason: &mut Reason) {
    reason.about(b"end");
    let word = words.next();
    if number_of(word) == Some(steps) && !words.is_empty() {
        reason.expected("the end of the line", words.next());
    } else {
        reason.put("expected the number of steps, ");
        reason.put_number(steps);
        reason.put_found(word);
    }
}

/// Goes over a line behind the head.
fn body_line(alloc: Global, place: &Place, past: &Past, reason: &mut Reason) {
    let mut words = Words::of(place.line);
    let word = words.next();
    let number = past.calls.saturating_add(1);
    if is_word(word, "end") {
        end_words(past.calls, &mut words, reason);
    } else if is_word(word, "stall") {
        stall_words(alloc, place, &mut words, reason);
    } else if past.last == b"stall".as_slice() {
        reason.expected("stall or end", word);
    } else if number_of(word) == Some(number) {
        step_words(alloc, place, &mut words, reason);
    } else {
        reason.put("expected the number of the step, ");
        reason.put_number(number);
        reason.put(", or stall or end");
        reason.put_found(word);
    }
}

/// Says why a journal is refused at this line.
pub(crate) fn find_out(alloc: Global, place: &Place, reason: &mut Reason) {
    let past = Past::of(place.earlier);
    if place.number <= 1 && !is_first(place.line) {
        first_line(place, "'xti-journal 1' or 'xti-journal 2'", reason);
    } else if past.last == b"end".as_slice() {
        reason.put("nothing stands behind the line end");
    } else if place.is_end {
        reason.put(if place.number <= 4 {
            "expected a provider's line, found the end of the input"
        } else {
            "expected a step, a stall line or the line end, found the end of the input"
        });
    } else if !place.is_ended {
        reason.put("the last line has no LF at its end");
    } else {
        match place.number {
            2 => profile_line(alloc, Prov::Ticots, place, reason),
            3 => profile_line(alloc, Prov::Ticotsord, place, reason),
            4 => profile_line(alloc, Prov::Ticlts, place, reason),
            _ => body_line(alloc, place, &past, reason),
        }
    }
}
