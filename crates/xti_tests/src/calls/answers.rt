//! What calls answered, a line of text each. Where memory runs out the text lacks a word, so that it is none that a test wants.

use std::fmt;
use xti_base::{Octets, Parts, Seq, let_go};
use xti_calls::{Fail as CallFail, TCall};

/// Adds what a call answered, a line.
pub(crate) fn note<T: fmt::Debug + Drop>(log: &mut String, answer: Result<T, CallFail>) {
    let _ = match &answer {
        Ok(told) => writeln!(log, "{told:?}"),
        Err(fail) => writeln!(log, "{fail:?}"),
    };
    let_go(answer);
}

/// Adds what a call answered that has lists of bytes, a line.
pub(crate) fn note_bytes<T: Told + Drop>(log: &mut String, answer: Result<T, CallFail>) {
    match &answer {
        Ok(told) => told.tell(log),
        Err(fail) => {
            let _ = write!(log, "{fail:?}");
        }
    }
    let_go(answer);
    let _ = log.push_str("\n");
}

/// Whether this is the text.
pub(crate) fn is_text(log: String, wanted: &str) -> bool {
    let is_text = log.as_str() == wanted;
    let_go(log);
    is_text
}

/// An answer that has lists of bytes: its fields in their order, each after a blank.
pub(crate) trait Told {
    /// Adds the text.
    fn tell(&self, log: &mut String);
}

impl Told for u32 {
    fn tell(&self, log: &mut String) {
        let _ = write!(log, " {self}");
    }
}

impl Told for Seq {
    fn tell(&self, log: &mut String) {
        let _ = write!(log, " {self:?}");
    }
}

impl Told for TCall {
    fn tell(&self, log: &mut String) {
        let _ = write!(log, " {self:?}");
    }
}

impl Told for Octets {
    fn tell(&self, log: &mut String) {
        let _ = write!(log, " {:?}", self.as_slice());
    }
}

impl Told for Parts {
    fn tell(&self, log: &mut String) {
        for part in self.as_slice() {
            part.tell(log);
        }
    }
}

impl<A: Told, B: Told> Told for (A, B) {
    fn tell(&self, log: &mut String) {
        self.0.tell(log);
        self.1.tell(log);
    }
}

impl<A: Told, B: Told, C: Told> Told for (A, B, C) {
    fn tell(&self, log: &mut String) {
        self.0.tell(log);
        self.1.tell(log);
        self.2.tell(log);
    }
}
