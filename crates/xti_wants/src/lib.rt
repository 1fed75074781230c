//! What a step of a call waits for, where it is blocked, in a value that takes no memory.
#![tactic(auto)]

mod laws;
mod want;
mod wanting;

pub use laws::blocked_calls_have_wants;
pub use want::{Want, WantKind};
pub use wanting::want_of;
