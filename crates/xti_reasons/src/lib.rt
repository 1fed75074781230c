//! Why a text is refused: the line that a reader refused is looked at once more, and one line says what was expected there.
//!
//! What is refused, and at which line, is for the readers to say; a reason is for who wrote the text, and no contract speaks of it.
#![tactic(auto)]

mod answers;
mod bounded;
mod fields;
mod heads;
mod journals;
mod links;
mod places;
mod profiles;
mod scripts;
mod values;

use crate::places::Place;
pub use bounded::{MOST_REASON, Reason};
use std::alloc::Global;

/// The kinds of texts that are read line by line.
#[derive(Clone, Copy, Debug, PartialEq, Eq)]
pub enum Kind {
    /// A script, with or without a head.
    Script,
    /// A journal.
    Journal,
    /// A link script.
    Link,
}

/// Why the reader of such texts refuses this one at the line with this number, counted from 1: what is expected there.
///
/// Where memory runs out it isn't found out, and the reason says that.
pub fn reason(alloc: Global, kind: Kind, text: &[u8], line: u64) -> Reason {
    let place = Place::at(text, line);
    let mut reason = Reason::at(line);
    match kind {
        Kind::Script => scripts::find_out(alloc, &place, &mut reason),
        Kind::Journal => journals::find_out(alloc, &place, &mut reason),
        Kind::Link => links::find_out(alloc, &place, &mut reason),
    }
    reason.or_unknown(line)
}
