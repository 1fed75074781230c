//! The words of the command line, read by `clap`.
#![tactic(auto)]

mod command;
mod laws;
mod words;

pub use command::{Command, Reading, WordsFail};
pub use laws::plain_words_are_commands;
pub use words::Words;
