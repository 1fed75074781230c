//! The text of journals, and writing it; the summary of a journal.
#![tactic(auto)]

mod calls;
mod counting;
mod journal;
mod line;
mod payload;
mod replies;
mod totals;
mod words;
mod worker;
mod writer;

pub use counting::Summary;
pub use journal::{write_answer, write_entry, write_journal};
pub use line::summary;
pub use writer::JournalWriter;
pub use xti_model::{Entries, Entry, Journal, StallLine, Stalls};
