//! Calls that are seen to wait before their step is tried.

ghost use Rattle.std.specs.Prelude.{◌≡◌, true};
ghost use Rattle.xti_end.specs.Held.{is_open, parts};
ghost use Rattle.xti_lent.specs.Fit.{AtOwnPlaces};
ghost use Rattle.xti_lent.specs.Lending.{cells};
ghost use Rattle.xti_core.specs.Waits.{AwaitsDatagram, IsBlocked};

use xti_base::State;
use xti_end::{Endpoint, has_datagrams};
use xti_lent::Lent;
use xti_model::Call;

/// Whether a receive of a datagram waits at an open endpoint.
fn awaits_datagram(e: &Endpoint) -> bool
    requires { is_open e.now ≡ true }
    ensures { result ≡ true → AwaitsDatagram (parts e.now) }
{
    !e.has_datagram()
        && !e.nonblock()
        && has_datagrams(e.prov())
        && e.state().is(State::T_IDLE)
        && !e.has_datagram_error()
}

/// Whether the call is seen to wait: only t_rcvudata is, where no datagram is there. Takes no memory.
#[tactic(auto, unfolding(xti_model::specs::Step::step, xti_model::specs::Step::plan))]
pub(crate) fn waits(lent: &Lent, call: &Call) -> bool
    requires { AtOwnPlaces lent.now }
    ensures { result ≡ true → IsBlocked lent.now.providers (cells lent.now) call.now }
{
    match call {
        Call::TRcvUData { fd, .. } => match lent.open_endpoint(*fd) {
            Some(e) => awaits_datagram(e),
            None => false,
        },
        _ => false,
    }
}
