//! What the text of an answer tells, and that of the journal of a copy.
#![tactic(auto)]

mod copies;
mod laws;

pub use copies::copies_have_texts;
pub use laws::answers_differ_in_text;
