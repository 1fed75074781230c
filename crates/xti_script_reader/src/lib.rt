//! Scripts: their text, and reading it.
#![tactic(auto)]

mod calls;
mod draft;
mod field_calls;
mod fields;
mod forms;
mod laws;
mod marks;
mod names;
mod script_text;

pub use fields::Key;
pub use forms::form;
pub use laws::{
    never_both, one_script, scripts_are_small, scripts_have_valid_providers, scripts_have_workers,
    scripts_send_bytes, scripts_tell_releases,
};
pub use script_text::{ScriptFail, read_script};
pub use xti_model::{Line, Lines, Name, NamedCall, Script};
pub use xti_verbs::Verb;
pub use xti_words::MOST_PIECES;
