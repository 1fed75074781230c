//! What a step of one cell answers.

ghost use Rattle.std.specs.Prelude.{◌≡◌};
ghost use Rattle.xti_model.specs.World.{place_of, endpoint, state_of};
ghost use Rattle.xti_end.specs.Held.{alone};
ghost use Rattle.xti_end.specs.Taken.{Replies};

use crate::endpoint::Endpoint;
use xti_base::{Errno, Fd, State};
use xti_model::{Applied, Outcome, Providers, Reply};

/// The state of the endpoint with this descriptor; T_UNINIT where it is not open.
fn state(e: &Endpoint, p: &Providers, fd: Fd) -> State
    requires { place_of p.now fd.0 ≡ e.now.place }
    ensures { result ≡ state_of (endpoint p.now (alone e.now) fd.0) }
{
    if e.is(p, fd) {
        e.state()
    } else {
        State::T_UNINIT
    }
}

/// A call that is done.
pub(crate) fn done(e: &Endpoint, p: &Providers, fd: Fd, reply: Reply) -> Applied
    requires { place_of p.now fd.0 ≡ e.now.place }
    ensures { Replies p.now fd.0 reply e.now result }
{
    Applied::Step {
        outcome: Outcome::Done(reply),
        after: state(e, p, fd),
    }
}

/// A refusal.
pub(crate) fn refused(e: &Endpoint, p: &Providers, fd: Fd, errno: Errno) -> Applied
    requires { place_of p.now fd.0 ≡ e.now.place }
    ensures { Replies p.now fd.0 (Reply.Refused errno) e.now result }
{
    done(e, p, fd, Reply::Refused { errno })
}
