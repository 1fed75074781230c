//! A step of a call, whose entry isn't kept.

use xti_base::State;
use xti_model::{Call, Go, Outcome};

/// What a step of a call made, by the parts of its entry.
#[derive(Clone, Copy)]
pub struct MadeStep<'a> {
    /// The call.
    pub call: &'a Call,
    /// How far it had come.
    pub go: Go,
    /// What the step answered.
    pub outcome: &'a Outcome,
    /// The state after it.
    pub after: State,
}
