//! The canonical text of scripts, and scripts that are generated.
#![tactic(auto)]

mod calls;
mod generating;
mod laws;
mod scripts;
mod values;

pub use generating::{generate, generated_scripts_have_texts};
pub use laws::scripts_are_read_back;
pub use scripts::write_script;
pub use xti_script_reader::{Line, Lines, Name, NamedCall, Script, ScriptFail, read_script};
