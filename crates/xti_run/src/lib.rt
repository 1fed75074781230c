//! The program: words, what a source has, and what a sink takes.
#![tactic(auto)]

mod top;

pub use top::{Status, program};
pub use xti_command::Words;
pub use xti_journal_text::{Summary, summary};
pub use xti_outputs::{check_says_legal_of_runs, replay, run};
pub use xti_script::generate;
pub use xti_step::{Gate, NoGate};
