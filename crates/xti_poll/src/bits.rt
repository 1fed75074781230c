//! Sums of events' numbers.

ghost use Rattle.std.specs.Prelude.{◌≡◌};
ghost use Rattle.xti_poll.specs.Sets.{are_events};
ghost use Rattle.xti_poll.specs.Polls.{is_asked};
ghost use Rattle.xti_poll.specs.Sums.{first_in_both};

use xti_base::Event;
use xti_core::EVENTS;

/// The numbers of all events.
const ALL: u32 = 0x3df;

/// Whether the number is the sum of the numbers of some events, and of one at least.
pub(crate) fn are_events(events: u32) -> bool
    ensures { result ≡ are_events events }
{
    events != 0 && events | ALL == ALL
}

/// Whether the event's number is in the sum.
fn is_in(events: u32, event: Event) -> bool
    ensures { result ≡ is_asked events event }
{
    events & event.number() != 0
}

/// The first event whose number is in both sums.
pub(crate) fn first_in_both(pending: u32, asked: u32) -> Option<Event>
    ensures { result ≡ first_in_both pending asked }
{
    let both = pending & asked;
    EVENTS.iter().copied().find(|event| is_in(both, *event))
}
