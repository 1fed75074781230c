//! The head of a script, which sets the values of the providers: reading it.
#![tactic(auto)]

mod head;
mod laws;
mod settings;

pub use head::{HeadFail, read_head};
pub use laws::{heads_are_valid, heads_tell_releases};
pub use xti_model::{Profile, Providers, Version};
