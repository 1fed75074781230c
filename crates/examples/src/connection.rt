//! A listener and a caller on two threads, over the library: a connection, a line each way, and its orderly release.
//! README.md shows the functions `listen` and `call`.

use crate::sides::{PROVIDER, bound, receive_all};
use std::alloc::AllocError;
use std::io::{Eprint, Print};
use std::sync::Wait;
use std::thread;
use std::thread::Threads;
use xti_calls::{Caller, Fail, Fd, Max, Providers, State, Xti};

/// The listener's address.
const LISTENER: &[u8] = b"listener";

/// One side of the connection at its end: what it received, and the state of its endpoint after the release, or why it gave up.
#[derive(Drop)]
struct Side {
    received: Vec<u8>,
    ended: Result<State, Fail>,
}

/// The listener's side, on an endpoint that is bound: waits for a request, accepts it, receives and answers.
fn listen<R: Wait + Sync>(
    caller: &mut Caller<R>,
    fd: Fd,
    received: &mut Vec<u8>,
) -> Result<State, Fail> {
    let request = caller.t_listen(fd, Max::ALL)?;
    let seq = request.seq;
    drop(request);
    caller.t_accept(fd, fd, seq, b"", b"")?;
    receive_all(caller, fd, received)?;
    caller.t_snd(fd, b"welcome", 0)?;
    caller.t_sndrel(fd)?;
    caller.t_getstate(fd)
}

/// The caller's side: asks the listener for a connection, sends, releases, and receives the answer.
fn call<R: Wait + Sync>(caller: &mut Caller<R>, received: &mut Vec<u8>) -> Result<State, Fail> {
    let fd = caller.t_open(PROVIDER, false)?;
    drop(caller.t_bind(fd, b"", 0, Max::ALL.addr)?);
    drop(caller.t_connect(fd, LISTENER, b"", b"", Max::ALL)?);
    caller.t_snd(fd, b"hello", 0)?;
    caller.t_sndrel(fd)?;
    receive_all(caller, fd, received)?;
    caller.t_getstate(fd)
}

/// A side's thread: the listener's on its endpoint, or the caller's where there is none. Its caller rests at the end, however
/// that comes, so that the other side doesn't wait for it.
fn take_part<R: Wait + Sync>(mut caller: Caller<R>, listener: Option<Fd>) -> Side {
    let mut received = Vec::new(caller.alloc());
    let ended = match listener {
        Some(fd) => listen(&mut caller, fd, &mut received),
        None => call(&mut caller, &mut received),
    };
    caller.rest();
    drop(caller);
    Side { received, ended }
}

/// Both sides, the caller's in a thread of its own, which starts once the listener's endpoint is bound: how the listener's ended,
/// and how the caller's did.
fn meet<'a, R: Threads + Wait + Sync>(
    rt: &'a R,
    mut listening: Caller<'a, R>,
    calling: Caller<'a, R>,
) -> Result<(Side, Side), Fail> {
    let fd = bound(&mut listening, LISTENER, 1)?;
    let sides = thread::scope(
        thread::scope_env(),
        rt,
        |scope| -> Result<(Side, Side), AllocError> {
            let thread = scope.spawn(move || take_part(calling, None))?;
            let listener = take_part(listening, Some(fd));
            Ok((listener, thread.join(rt)))
        },
    );
    Ok(sides?)
}

/// Both sides in a library of their own, which keeps no history.
fn exchange<R: Threads + Wait + Sync + AllocGlobal>(rt: &R) -> Result<(Side, Side), Fail> {
    let (xti, seat) = Xti::new(rt.alloc(), &Providers::usual(), false)?;
    let mut listening = xti.caller(rt, rt.alloc(), seat);
    // The first seat has 32 numbers to spare.
    let calling = listening.split().unwrap();
    let sides = meet(rt, listening, calling);
    drop(xti);
    sides
}

/// Prints how a side ended; whether it ended well, and that was printed.
fn report<R: Print + Eprint>(rt: &R, name: &str, side: &Side) -> bool {
    let received = side.received.as_slice().escape_ascii();
    match side.ended {
        Ok(state) => {
            let state = state.name();
            println!(rt; "{name} received \"{received}\" and ended in {state}").is_ok()
        }
        Err(fail) => {
            let _ = eprintln!(rt; "{name}: {fail}");
            false
        }
    }
}

/// Runs the example: whether both sides ended well, and that was printed.
pub(crate) fn run<R: Threads + Wait + Sync + Print + Eprint + AllocGlobal>(rt: &R) -> bool {
    let (listener, caller) = match exchange(rt) {
        Ok(sides) => sides,
        Err(fail) => {
            let _ = eprintln!(rt; "{fail}");
            return false;
        }
    };
    let listened = report(rt, "listener", &listener);
    let called = report(rt, "caller", &caller);
    listened && called
}
