//! The line that is refused, and what stands before it.

use xti_model::Version;
use xti_words::{Words, first_line, number_in};

/// A line of a text.
#[derive(Clone, Copy)]
pub(crate) struct Place<'a> {
    /// The version of the text.
    pub(crate) version: Version,
    /// Its number, from 1.
    pub(crate) number: u64,
    /// The lines before, each with its end.
    pub(crate) earlier: &'a [u8],
    /// The line, without its end.
    pub(crate) line: &'a [u8],
    /// Whether LF ends it.
    pub(crate) is_ended: bool,
    /// Whether no line is there.
    pub(crate) is_end: bool,
    /// What is after it.
    pub(crate) behind: &'a [u8],
}

/// Where the line with this number begins, or the end of the text.
fn start_of(text: &[u8], line: u64) -> usize {
    let mut number = 1u64;
    for (at, c) in text.iter().enumerate() {
        if number >= line {
            return at;
        }
        if *c == b'\n' {
            number = number.saturating_add(1);
        }
    }
    text.len()
}

/// The version that the first line of a text tells; 1 where it tells none.
fn version_of(text: &[u8]) -> Version {
    let is_two = match text.split(ends_line).next() {
        Some(line) => line == b"xti-script 2".as_slice() || line == b"xti-journal 2".as_slice(),
        None => false,
    };
    if is_two { Version::Two } else { Version::One }
}

impl<'a> Place<'a> {
    /// The line with this number; the empty one at the end where there are fewer.
    pub(crate) fn at(text: &'a [u8], number: u64) -> Place<'a> {
        let start = start_of(text, number).min(text.len());
        let (earlier, rest) = text.split_at(start);
        let (line, behind) = if rest.is_empty() {
            (rest, rest)
        } else {
            first_line(rest)
        };
        Place {
            version: version_of(text),
            number,
            earlier,
            line,
            is_ended: line.len() < rest.len(),
            is_end: rest.is_empty(),
            behind,
        }
    }
}

/// Whether the byte ends a line.
pub(crate) fn ends_line(c: &u8) -> bool {
    *c == b'\n'
}

/// Whether the word is this one.
pub(crate) fn is_word(word: Option<&[u8]>, text: &str) -> bool {
    word == Some(text.as_bytes())
}

/// The number that the word is.
pub(crate) fn number_of(word: Option<&[u8]>) -> Option<u64> {
    Some(number_in(word?)? as u64)
}

/// What the lines before say.
#[derive(Clone, Copy)]
pub(crate) struct Past<'a> {
    /// How many of them begin with a number: the calls of a script, the steps of a journal.
    pub(crate) calls: u64,
    /// The first word of the last that isn't empty.
    pub(crate) last: &'a [u8],
}

impl<'a> Past<'a> {
    /// What these lines say, each of which has its end.
    pub(crate) fn of(earlier: &'a [u8]) -> Past<'a> {
        let mut past = Past {
            calls: 0,
            last: b"",
        };
        for line in earlier.split(ends_line) {
            let word = Words::of(line).next().unwrap_or(b"");
            if !word.is_empty() {
                past.last = word;
            }
            if number_in(word).is_some() {
                past.calls = past.calls.saturating_add(1);
            }
        }
        past
    }
}

/// Where a call stands.
#[derive(Clone, Copy)]
pub(crate) struct Spot<'a> {
    /// The lines before, each with its end.
    pub(crate) earlier: &'a [u8],
    /// The worker that makes the call.
    pub(crate) worker: u64,
}

/// No line before, and so no names.
pub(crate) const NOWHERE: Spot = Spot {
    earlier: b"",
    worker: 0,
};

impl<'a> Spot<'a> {
    /// Whether an earlier line is this call, of this worker or of worker 0, and defines the name: with the first word behind the
    /// call, or with the second.
    pub(crate) fn defines(&self, call: &[u8], is_second: bool, name: &[u8]) -> bool {
        for line in self.earlier.split(ends_line) {
            let mut words = Words::of(line);
            let who = number_of(words.next());
            if (who == Some(0) || who == Some(self.worker)) && words.next() == Some(call) {
                if is_second {
                    words.next();
                }
                if words.next() == Some(name) {
                    return true;
                }
            }
        }
        false
    }
}
