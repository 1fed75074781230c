//! An endpoint ends its connection, or takes its request back.

ghost use Rattle.std.specs.Prelude.{◌≡◌, ◌≤◌, true, length, IfSome, IsOk, OnErr, OnOk};
ghost use Rattle.xti_base.specs.declared.limits.TheConstants.{MOST_CONNECT_DATA};
ghost use Rattle.xti_end.specs.Held.{is_open, parts};
ghost use Rattle.xti_lent.specs.Answers.{IsUnchanged};
ghost use Rattle.xti_lent.specs.Fit.{IsFit, SameCells};
ghost use Rattle.xti_lent.specs.Lending.{open_at};
ghost use Rattle.xti_switch.specs.Hearing.{listener_news, peer_news, Breaks, CanBreak, HasNoLinks};
ghost use Rattle.xti_switch.specs.Taken.{IsOpen};

use crate::notices::{News, prepare_any, tell_any};
use std::alloc::AllocError;
use xti_base::Fd;
use xti_end::Endpoint;
use xti_lent::Lent;

/// What the peer of the open endpoint hears where it ends its connection.
fn peer_news(e: &Endpoint, fd: Fd) -> Option<(Fd, News)>
    requires { is_open e.now ≡ true }
    ensures { result ≡ peer_news fd (parts e.now) }
{
    let peer = e.peer()?;
    Some((peer, News::Broken { by: fd }))
}

/// What the listener hears that the open endpoint asks, where it takes its request back.
fn listener_news(e: &Endpoint) -> Option<(Fd, News)>
    requires { is_open e.now ≡ true }
    ensures { result ≡ listener_news (parts e.now) }
{
    let listener = e.target()?;
    let number = e.target_seq()?;
    Some((listener, News::TakenBack { number }))
}

/// The peer of the open endpoint hears that it ended their connection, and the listener that it took its request back; where
/// memory runs out the cells are as before.
pub(crate) fn break_off(
    lent: &mut Lent,
    fd: Fd,
    reason: u32,
    udata: &[u8],
) -> Result<(), AllocError>
    requires fit { IsFit lent.old }
    requires open { IsOpen lent.old fd.0 }
    requires reach { IfSome (open_at lent.old fd.0) (CanBreak lent.old) }
    requires udata { length udata.now ≤ MOST_CONNECT_DATA }
    ensures ok { OnOk result (Breaks lent.old lent.new fd.0 reason udata.now) }
    ensures kept { SameCells lent.old lent.new }
    ensures registry { lent.new.registry ≡ lent.old.registry }
    ensures err { OnErr result (IsUnchanged lent.old lent.new) }
    ensures sure { IfSome (open_at lent.old fd.0) HasNoLinks → IsOk result }
{
    let (peer, listener) = match lent.open_endpoint(fd) {
        Some(e) => (peer_news(e, fd), listener_news(e)),
        None => unreachable!(),
    };
    let to_peer = prepare_any(lent, peer, reason, udata)?;
    let to_listener = or_drop!(prepare_any(lent, listener, reason, udata), to_peer);
    tell_any(lent, to_peer);
    tell_any(lent, to_listener);
    Ok(())
}
