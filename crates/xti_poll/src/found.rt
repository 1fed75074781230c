//! What a poll finds.

use xti_base::{Event, Fd};

/// What a poll finds of one descriptor, or of several.
#[derive(Clone, Copy, Debug, PartialEq, Eq)]
pub enum Found {
    /// The event is pending at the descriptor and asked of it: the first one, in the order of `t_look`.
    Event { fd: Fd, event: Event },
    /// No endpoint is open with the descriptor.
    Gone { fd: Fd },
    /// Nothing that is asked for.
    None,
}

impl Found {
    ghost use Rattle.std.specs.Prelude.{◌≡◌};
    ghost use Rattle.xti_poll.specs.Polls.{is_none};

    /// Whether it is nothing that is asked for.
    pub fn is_none(&self) -> bool
        ensures { result ≡ is_none self.now }
    {
        matches!(self, Found::None)
    }
}
