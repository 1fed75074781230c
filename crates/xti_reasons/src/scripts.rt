//! Why a script is refused.

use crate::bounded::Reason;
use crate::fields::{Form, find_call};
use crate::heads;
use crate::places::{Past, Place};
use std::alloc::Global;
use xti_base::limits::MOST_LINES;
use xti_words::Words;

fn call_line(alloc: Global, place: &Place, reason: &mut Reason) {
    let mut words = Words::of(place.line);
    let Some((call, open)) = find_call(alloc, Form::Script, place, &mut words, reason) else {
        return;
    };
    match words.first() {
        Some(word) => call.misplaced(open, word, reason),
        // The call is right in itself, so it passes a limit.
        None if Past::of(place.earlier).calls >= MOST_LINES as u64 => {
            reason.put("more than 100000 calls");
        }
        None => reason.put("more than 4194304 bytes in the arguments of all calls"),
    }
}

/// Says of a first line what it has to be.
pub(crate) fn first_line(place: &Place, wanted: &str, reason: &mut Reason) {
    reason.put("expected ");
    reason.put(wanted);
    reason.put(", found ");
    if place.is_end {
        reason.put("the end of the input");
    } else {
        reason.put_quoted(place.line);
    }
}

/// Says why a script is refused at this line.
pub(crate) fn find_out(alloc: Global, place: &Place, reason: &mut Reason) {
    if place.number <= 1 {
        first_line(place, "'xti-script 1' or 'xti-script 2'", reason);
    } else if place.number == 2 && place.line == b"+++".as_slice() {
        heads::find_out(alloc, place.version, place.behind, reason);
    } else if place.line.starts_with(b"#".as_slice()) {
        reason.put("a comment has a byte that is not ASCII");
    } else {
        call_line(alloc, place, reason);
    }
}
