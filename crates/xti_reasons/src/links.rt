//! Why a link script is refused.

use crate::bounded::Reason;
use crate::places::Place;
use crate::scripts::first_line;
use crate::values::{Value, are_right};
use std::alloc::Global;
use xti_gbn::MOST_EVENTS;
use xti_words::Words;

/// The words of events, what stands behind each, and how that is called.
static EVENTS: [(&[u8], &[Value], &str); 4] = [
    (b"timeout", &[], ""),
    (b"offer", &[Value::Body], "bytes"),
    (b"data", &[Value::Number], "a number"),
    (b"ack", &[Value::Number], "a number"),
];

/// What stands behind the word of such an event, and how that is called; nothing where it is none.
fn values_of(event: &[u8]) -> Option<(&'static [Value], &'static str)> {
    for (word, values, wanted) in &EVENTS {
        if event == *word {
            return Some((*values, *wanted));
        }
    }
    None
}

fn event_line(alloc: Global, line: &[u8], reason: &mut Reason) {
    let mut words = Words::of(line);
    let word = words.next();
    let event = word.unwrap_or(b"");
    let Some((values, wanted)) = values_of(event) else {
        reason.expected("offer, timeout, data or ack", word);
        return;
    };
    reason.about(event);
    if words.is_empty() && !values.is_empty() {
        reason.expected(wanted, None);
    } else if are_right(alloc, values, &mut words, reason) {
        reason.expected("the end of the line", words.next());
    }
}

/// Says why a link script is refused at this line.
pub(crate) fn find_out(alloc: Global, place: &Place, reason: &mut Reason) {
    if place.number <= 1 && place.line != b"xti-link 1".as_slice() {
        first_line(place, "'xti-link 1'", reason);
    } else if !place.is_ended {
        reason.put("the last line has no LF at its end");
    } else if place.number > MOST_EVENTS as u64 + 1 {
        reason.put("more than 10000 events");
    } else {
        event_line(alloc, place.line, reason);
    }
}
