//! Socket calls over a library, with worked answers from outside.

ghost use Rattle.std.specs.Prelude.{◌≡◌, true, IfOk};
ghost use Rattle.xti_sock.specs.Socks.{IsInStep};

use crate::library::{another_seat, library};
use std::alloc::Global;
use std::process::Abort;
use std::sync::Wait;
use std::test::*;
use xti_base::{Errno, Octets};
use xti_copy::Shared;
use xti_sock::{Caller, Sock, SockFail};

const SERVICE: &[u8] = b"srv";

/// The caller has no call unfinished; else the test fails.
fn ready<C: Caller, R: Abort>(io: &C, rt: &R)
    ensures { (C.sight io.now).free ≡ true }
{
    if !io.free() {
        panic!(rt; "a call is unfinished");
    }
}

/// A socket.
fn made<C: Caller, R: Wait + Sync + Abort>(
    io: &mut C,
    rt: &R,
    alloc: Global,
    nonblock: bool,
) -> Sock
    ensures step { IsInStep result (C.sight io.new).mine }
{
    ready(io, rt);
    match Sock::socket(io, rt, alloc, nonblock) {
        Ok(sock) => sock,
        Err(_) => panic!(rt; "no socket"),
    }
}

/// A socket that listens at the service's address.
fn listening<C: Caller, R: Wait + Sync + Abort>(
    io: &mut C,
    rt: &R,
    alloc: Global,
    nonblock: bool,
) -> Result<Sock, SockFail>
    ensures step { IfOk result (λ sock. IsInStep sock (C.sight io.new).mine) }
{
    let mut sock = made(io, rt, alloc, nonblock);
    ready(io, rt);
    sock.bind(io, rt, alloc, SERVICE)?;
    ready(io, rt);
    sock.listen(io, rt, alloc, 1)?;
    Ok(sock)
}

/// A send on a socket that was just made.
fn send_at_once<C: Caller, R: Wait + Sync + Abort>(
    io: &mut C,
    rt: &R,
    alloc: Global,
) -> Result<u32, SockFail> {
    let mut sock = made(io, rt, alloc, false);
    ready(io, rt);
    sock.send(io, rt, alloc, b"x")
}

/// A connect to the service's address.
fn connect<C: Caller, R: Wait + Sync + Abort>(
    io: &mut C,
    rt: &R,
    alloc: Global,
    nonblock: bool,
) -> Result<(), SockFail> {
    let mut sock = made(io, rt, alloc, nonblock);
    ready(io, rt);
    sock.connect(io, rt, alloc, SERVICE)
}

/// A receive on a connection on which nothing was sent, where the client is a caller of its own.
fn receive_nothing<C: Caller, R: Wait + Sync + Abort>(
    server: &mut C,
    client: &mut C,
    rt: &R,
    alloc: Global,
) -> Result<Octets, SockFail> {
    let mut listener = listening(server, rt, alloc, true)?;
    match connect(client, rt, alloc, true) {
        Err(SockFail::WouldBlock) => {}
        Err(fail) => return Err(fail),
        Ok(()) => return Err(SockFail::WrongPhase),
    }
    ready(server, rt);
    let mut sock = listener.accept(server, rt, alloc, true)?;
    ready(server, rt);
    sock.recv(server, rt, alloc, 8)
}

#[test]
fn nothing_waits(rt: HostRuntime) {
    let (xti, mut first) = library(&rt, rt.alloc(), false);
    let second = another_seat(&rt, rt.alloc(), &xti, &mut first);
    let mut server = Shared::new(&xti, first);
    let mut client = Shared::new(&xti, second);
    let received = receive_nothing(&mut server, &mut client, &rt, rt.alloc());
    drop(client);
    drop(server);
    drop(xti);
    let would_wait = matches!(&received, Err(SockFail::WouldBlock));
    drop(received);
    assert!(rt; would_wait);
}

/// A send before a connection, a connect to nobody, and a second listener at the same address.
#[test]
fn refusals(rt: HostRuntime) {
    let (xti, seat) = library(&rt, rt.alloc(), false);
    let mut io = Shared::new(&xti, seat);
    let at_once = send_at_once(&mut io, &rt, rt.alloc());
    let to_nobody = connect(&mut io, &rt, rt.alloc(), false);
    let once = listening(&mut io, &rt, rt.alloc(), false);
    let twice = listening(&mut io, &rt, rt.alloc(), false);
    drop(io);
    drop(xti);
    let refused = [
        matches!(at_once, Err(SockFail::WrongPhase)),
        matches!(to_nobody, Err(SockFail::Reset { reason: 1 })),
        once.is_ok(),
        matches!(
            &twice,
            Err(SockFail::Xti {
                errno: Errno::TADDRBUSY
            })
        ),
    ];
    drop(once);
    drop(twice);
    assert!(rt; refused == [true; 4]);
}
