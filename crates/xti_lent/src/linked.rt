//! The other side of a connection, and how much may wait there.

ghost use Rattle.std.specs.Prelude.{◌≡◌, true, Some, is_some, IfSome};
ghost use Rattle.xti_model.specs.Sending as Sending;
ghost use Rattle.xti_model.specs.Symbols.{bytes_waiting, ends_waiting};
ghost use Rattle.xti_end.specs.Held.{is_open, parts};
ghost use Rattle.xti_lent.specs.Fit.{AtOwnPlaces};
ghost use Rattle.xti_lent.specs.Lending.{linked_in, linked_with, number_of, seen, IsSeen};
ghost use Rattle.xti_lent.specs.Room.{IsRoom};

use crate::lent::Lent;
use xti_base::Fd;
use xti_base::limits::{MOST_ENDS, MOST_EXPEDITED, MOST_EXPEDITED_ENDS};
use xti_end::Endpoint;

impl Lent {
    /// The endpoint that is linked with one that names this peer: the peer, where that is open and names the one with this descriptor.
    pub fn linked_with(&self, fd: Fd, peer: Option<Fd>) -> Option<&Endpoint>
        requires { AtOwnPlaces self.now }
        ensures linked { seen result ≡ linked_with self.now fd.0 (number_of peer) }
        ensures open { IsSeen result }
    {
        let e = self.open_endpoint(peer?)?;
        match e.peer() {
            Some(back) if back.0 == fd.0 => Some(e),
            _ => None,
        }
    }

    /// The endpoint that an open one is linked with, among those that are lent: each names the other as its peer. The open one's
    /// descriptor is given.
    pub fn linked(&self, fd: Fd, e: &Endpoint) -> Option<&Endpoint>
        requires places { AtOwnPlaces self.now }
        requires open { is_open e.now ≡ true }
        ensures peer { seen result ≡ linked_in self.now fd.0 (parts e.now) }
        ensures open { IfSome result (λ peer. is_open peer.now ≡ true) }
    {
        self.linked_with(fd, e.peer())
    }
}

/// How many bytes of the kind wait at the receiver, and how many ends of messages.
fn waiting(peer: Option<&Endpoint>, expedited: bool) -> (usize, usize)
    requires { IsSeen peer }
    ensures bytes { result.0 ≡ bytes_waiting (Sending.waiting expedited (seen peer.entry)) }
    ensures ends { result.1 ≡ ends_waiting (Sending.waiting expedited (seen peer.entry)) }
{
    let Some(peer) = peer else {
        return (0, 0);
    };
    let queue = if expedited {
        peer.expedited()
    } else {
        peer.normal()
    };
    (queue.bytes_len(), queue.ends_len())
}

/// How many bytes of the kind may wait at the receiver.
fn byte_bound(e: &Endpoint, peer: Option<&Endpoint>, expedited: bool) -> usize
    requires open { is_open e.now ≡ true }
    requires peer { IsSeen peer }
    ensures { result ≡ Sending.byte_bound expedited (parts e.now) (seen peer.entry) }
{
    if expedited {
        return MOST_EXPEDITED;
    }
    let receive_size = match peer {
        Some(peer) => peer.rcvbuf(),
        None => 0,
    };
    e.sndbuf() as usize + receive_size as usize
}

/// How many ends of messages of the kind may wait.
fn end_bound(expedited: bool) -> usize
    ensures { result ≡ Sending.end_bound expedited }
{
    if expedited {
        MOST_EXPEDITED_ENDS
    } else {
        MOST_ENDS
    }
}

/// How many bytes more may wait at the receiver; `None` exactly where a send of the kind is not ready. The cost doesn't grow with
/// what waits.
pub fn room(e: &Endpoint, peer: Option<&Endpoint>, expedited: bool) -> Option<usize>
    requires open { is_open e.now ≡ true }
    requires peer { IsSeen peer }
    ensures ready { is_some result ≡ Sending.ready_for expedited (parts e.now) (seen peer.entry) }
    ensures room { IfSome result (IsRoom expedited (parts e.now) (seen peer.entry)) }
{
    let most = byte_bound(e, peer, expedited);
    let (bytes, ends) = waiting(peer, expedited);
    if bytes < most && ends < end_bound(expedited) {
        Some(most - bytes)
    } else {
        None
    }
}

/// Whether a send of one byte at least is ready: at the peer less waits than may. Both are open.
pub fn is_ready(e: &Endpoint, peer: &Endpoint, expedited: bool) -> bool
    requires open { is_open e.now ≡ true }
    requires peer { is_open peer.now ≡ true }
    ensures { result ≡ Sending.ready_for expedited (parts e.now) (Some (parts peer.now)) }
{
    room(e, Some(peer), expedited).is_some()
}
