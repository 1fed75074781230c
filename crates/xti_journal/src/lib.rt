//! Journals read back.
#![tactic(auto)]

/// What was read; where it wasn't, the function ends with that error, as at `?`, which is two calls more to prove.
macro_rules! read_or_end {
    ($read:expr) => {
        match $read {
            Ok(read) => read,
            Err(fail) => return Err(fail),
        }
    };
}

mod answers;
mod body;
mod calls;
mod draft;
mod fields;
mod forms;
mod journal_text;
mod laws;
mod lines;
mod names;
mod values;

pub use journal_text::{JournalFail, read_journal};
pub use laws::{never_both, one_journal, written_journals_are_read};
pub use names::{errno_in, event_in, event_or_none_in, limit_in, service_in, state_in, truth_in};
pub use xti_journal_text::{JournalWriter, write_answer, write_entry, write_journal};
pub use xti_model::{Entries, Entry, Journal, StallLine, Stalls};
pub use xti_verbs::{Answer, Verb};
