//! A server that polls: a listener and three connections, served by one thread, which prints what each poll finds.

use std::alloc::AllocError;
use std::io::{self, Eprint, Print};
use std::sync::Wait;
use xti_calls::{Caller, Errno, Event, Fail, Fd, Max, Providers, Xti};
use xti_poll::{Found, PollFail, PollSet};

/// The provider, of connections without orderly release.
const PROVIDER: &[u8] = b"ticots";

/// The server's address.
const SERVER: &[u8] = b"server";

/// What the clients send, each on its connection.
const WORDS: [&str; 3] = ["one", "two", "three"];

/// Why the program gave up.
#[derive(Clone, Copy)]
enum Failure {
    /// Printing failed.
    Printing,
    /// A call was refused, or stopped.
    Call(Fail),
    /// No more events could be asked for.
    Set(PollFail),
}

impl From<io::Error> for Failure {
    fn from(_error: io::Error) -> Failure {
        Failure::Printing
    }
}

impl From<AllocError> for Failure {
    fn from(error: AllocError) -> Failure {
        Failure::Call(Fail::Memory(error))
    }
}

impl From<Fail> for Failure {
    fn from(fail: Fail) -> Failure {
        Failure::Call(fail)
    }
}

impl From<PollFail> for Failure {
    fn from(fail: PollFail) -> Failure {
        Failure::Set(fail)
    }
}

/// An endpoint with O_NONBLOCK that is bound to the address.
fn bound<R: Wait + Sync>(caller: &mut Caller<R>, addr: &[u8], qlen: u32) -> Result<Fd, Fail> {
    let fd = caller.t_open(PROVIDER, true)?;
    drop(caller.t_bind(fd, addr, qlen, Max::ALL.addr)?);
    Ok(fd)
}

/// Accepts the request on an endpoint of its own, of which data and a disconnect are asked from then on.
fn accept<R: Wait + Sync>(
    caller: &mut Caller<R>,
    set: &mut PollSet,
    listener: Fd,
) -> Result<(), Failure> {
    let request = caller.t_listen(listener, Max::ALL)?;
    let seq = request.seq;
    drop(request);
    let fd = caller.t_open(PROVIDER, true)?;
    caller.t_accept(listener, fd, seq, b"", b"")?;
    set.set(fd, Event::T_DATA.number() | Event::T_DISCONNECT.number())?;
    Ok(())
}

/// Receives what was sent, and prints how much that is.
fn receive<R: Wait + Sync + Print>(rt: &R, caller: &mut Caller<R>, fd: Fd) -> Result<(), Failure> {
    let (bytes, _flags) = caller.t_rcv(fd, 1024)?;
    let many = bytes.as_slice().len();
    drop(bytes);
    Ok(println!(rt; "  {many} bytes")?)
}

/// Does what an event asks for.
fn answer<R: Wait + Sync + Print>(
    rt: &R,
    caller: &mut Caller<R>,
    set: &mut PollSet,
    fd: Fd,
    event: Event,
) -> Result<(), Failure> {
    println!(rt; "{} at {}", event.name(), fd.0)?;
    match event {
        Event::T_LISTEN => accept(caller, set, fd),
        Event::T_DATA => receive(rt, caller, fd),
        _ => Ok(caller.t_close(fd)?),
    }
}

/// Polls and does what is found, until nothing is.
fn serve<R: Wait + Sync + Print>(
    rt: &R,
    caller: &mut Caller<R>,
    set: &mut PollSet,
) -> Result<(), Failure> {
    for _ in rt.forever() {
        match set.poll(caller)? {
            Found::Event { fd, event } => answer(rt, caller, set, fd, event)?,
            Found::Gone { fd } => {
                set.drop_fd(fd);
                println!(rt; "{} is gone", fd.0)?;
            }
            Found::None => return Ok(()),
        }
    }
    unreachable!()
}

/// A client's endpoint with a connection, for which it asks; it takes the answer once the server has accepted.
fn connect<R: Wait + Sync + Print>(
    rt: &R,
    caller: &mut Caller<R>,
    set: &mut PollSet,
) -> Result<Fd, Failure> {
    let fd = bound(caller, b"", 0)?;
    match caller.t_connect(fd, SERVER, b"", b"", Max::ALL) {
        Ok(answer) => drop(answer),
        Err(Fail::Err(Errno::TNODATA)) => {}
        Err(fail) => return Err(fail.into()),
    }
    serve(rt, caller, set)?;
    drop(caller.t_rcvconnect(fd, Max::ALL)?);
    Ok(fd)
}

/// Each client sends its word.
fn send_words<R: Wait + Sync>(caller: &mut Caller<R>, clients: &[Fd; 3]) -> Result<(), Fail> {
    for place in 0..3 {
        caller.t_snd(clients[place], WORDS[place].as_bytes(), 0)?;
    }
    Ok(())
}

/// Each client closes its endpoint.
fn close_all<R: Wait + Sync>(caller: &mut Caller<R>, clients: &[Fd; 3]) -> Result<(), Fail> {
    for client in clients {
        caller.t_close(*client)?;
    }
    Ok(())
}

/// Clients connect, send a word each and close, and the server, whose endpoint this is, serves them in between.
fn converse<R: Wait + Sync + Print>(
    rt: &R,
    caller: &mut Caller<R>,
    set: &mut PollSet,
    listener: Fd,
) -> Result<(), Failure> {
    let mut clients = [listener; 3];
    for client in &mut clients {
        *client = connect(rt, caller, set)?;
    }
    send_words(caller, &clients)?;
    serve(rt, caller, set)?;
    close_all(caller, &clients)?;
    serve(rt, caller, set)
}

/// Binds the server's endpoint, of which requests are asked, before the clients come.
fn meet<R: Wait + Sync + Print>(
    rt: &R,
    caller: &mut Caller<R>,
    set: &mut PollSet,
) -> Result<(), Failure> {
    let listener = bound(caller, SERVER, 3)?;
    set.set(listener, Event::T_LISTEN.number())?;
    converse(rt, caller, set, listener)
}

/// The same in a library of its own, which keeps no history.
fn exchange<R: Wait + Sync + Print + AllocGlobal>(rt: &R) -> Result<(), Failure> {
    let mut set = PollSet::new(rt.alloc());
    let (xti, seat) = Xti::new(rt.alloc(), &Providers::usual(), false)?;
    let mut caller = xti.caller(rt, rt.alloc(), seat);
    let served = meet(rt, &mut caller, &mut set);
    drop(caller);
    drop(xti);
    served
}

/// Runs the example: whether all was served, and printed.
pub(crate) fn run<R: Wait + Sync + Print + Eprint + AllocGlobal>(rt: &R) -> bool {
    let _ = match exchange(rt) {
        Ok(()) => return true,
        Err(Failure::Call(fail)) => eprintln!(rt; "{fail}"),
        Err(Failure::Set(fail)) => eprintln!(rt; "{fail}"),
        Err(Failure::Printing) => eprintln!(rt; "printing failed"),
    };
    false
}
