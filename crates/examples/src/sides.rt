//! What the examples `connection` and `server` share: the provider, an endpoint that is bound, and receiving all.

use std::sync::Wait;
use xti_calls::{Caller, Event, Fail, Fd, Max};

/// The provider, of connections with orderly release.
pub(crate) const PROVIDER: &[u8] = b"ticotsord";

/// An endpoint that is bound to the address, with a queue of this length.
pub(crate) fn bound<R: Wait + Sync>(
    caller: &mut Caller<R>,
    addr: &[u8],
    qlen: u32,
) -> Result<Fd, Fail> {
    let fd = caller.t_open(PROVIDER, false)?;
    drop(caller.t_bind(fd, addr, qlen, Max::ALL.addr)?);
    Ok(fd)
}

/// Adds what comes until the other side releases the connection, and takes the release.
pub(crate) fn receive_all<R: Wait + Sync>(
    caller: &mut Caller<R>,
    fd: Fd,
    received: &mut Vec<u8>,
) -> Result<(), Fail> {
    let mut buffer = [0; 1024];
    for _ in caller.rt().forever() {
        match caller.t_rcv_into(fd, &mut buffer) {
            Ok((count, _flags)) => received.extend_from_slice(&buffer[..count as usize])?,
            Err(Fail::Look(Event::T_ORDREL)) => return caller.t_rcvrel(fd),
            Err(fail) => return Err(fail),
        }
    }
    unreachable!()
}
