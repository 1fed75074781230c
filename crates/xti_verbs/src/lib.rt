//! The table of calls: the word of each, and what it answers. Scripts, journals and the library share it.
#![tactic(auto)]

mod answer;
mod verb;

pub use answer::Answer;
pub use verb::Verb;
