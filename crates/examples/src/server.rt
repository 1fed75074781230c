//! A server with a queue, and eight clients, each on a thread of its own, over the library: connections whose requests wait in
//! the queue, a line each way on each of them, and their orderly releases.

use crate::sides::{PROVIDER, bound, receive_all};
use std::alloc::AllocError;
use std::io::{Eprint, Print};
use std::sync::Wait;
use std::thread;
use std::thread::Threads;
use xti_calls::{Caller, Event, Fail, Fd, Max, Providers, Seq, Xti};

/// The server's address.
const SERVER: &[u8] = b"server";

/// The clients' names.
const NAMES: [&str; 8] = [
    "Ada", "Blaise", "Charles", "Donald", "Edsger", "Frances", "Grace", "Haskell",
];

/// A client: its caller, which makes its calls, its name, what it was told, and why it gave up, if it did.
#[derive(Drop)]
struct Client<'a, R> {
    caller: Caller<'a, R>,
    name: &'static str,
    greeting: Vec<u8>,
    ended: Result<(), Fail>,
}

/// Takes the next request from the queue, for which it waits where there is none, and keeps its number.
fn take<R: Wait + Sync>(
    caller: &mut Caller<R>,
    listener: Fd,
    requests: &mut Vec<Seq>,
) -> Result<(), Fail> {
    let request = caller.t_listen(listener, Max::ALL)?;
    let kept = requests.extend_from_slice(&[request.seq]);
    drop(request);
    Ok(kept?)
}

/// Accepts the oldest request on an endpoint. XTI refuses that while further requests are in the queue: these are taken first.
fn accept<R: Wait + Sync>(
    caller: &mut Caller<R>,
    listener: Fd,
    fd: Fd,
    requests: &mut Vec<Seq>,
) -> Result<(), Fail> {
    for _ in caller.rt().forever() {
        if let Some(oldest) = requests.first() {
            match caller.t_accept(listener, fd, *oldest, b"", b"") {
                Ok(()) => {
                    requests.remove(0);
                    return Ok(());
                }
                Err(Fail::Look(Event::T_LISTEN)) => {}
                Err(fail) => return Err(fail),
            }
        }
        take(caller, listener, requests)?;
    }
    unreachable!()
}

/// Greets the client at the other end by its name: that is all that a client sends before it releases. The server releases too
/// then.
fn greet<R: Wait + Sync>(caller: &mut Caller<R>, fd: Fd, name: &mut Vec<u8>) -> Result<(), Fail> {
    name.clear();
    receive_all(caller, fd, name)?;
    caller.t_snd(fd, b"welcome, ", 0)?;
    caller.t_snd(fd, name.as_slice(), 0)?;
    caller.t_sndrel(fd)
}

/// Greets as many clients as there are, one after the other on the same endpoint.
fn serve<R: Wait + Sync>(
    caller: &mut Caller<R>,
    listener: Fd,
    requests: &mut Vec<Seq>,
    name: &mut Vec<u8>,
) -> Result<(), Fail> {
    let fd = caller.t_open(PROVIDER, false)?;
    for _client in 0..NAMES.len() {
        accept(caller, listener, fd, requests)?;
        greet(caller, fd, name)?;
    }
    Ok(())
}

/// The server's thread. It rests at the end, however that comes, so that no client waits for it.
fn server_side<R: Wait + Sync>(mut caller: Caller<R>, listener: Fd) -> Result<(), Fail> {
    let mut requests = Vec::new(caller.alloc());
    let mut name = Vec::new(caller.alloc());
    let served = serve(&mut caller, listener, &mut requests, &mut name);
    caller.rest();
    drop(caller);
    served
}

/// Connects to the server, tells it a name, and adds the greeting that comes.
fn be_greeted<R: Wait + Sync>(
    caller: &mut Caller<R>,
    name: &str,
    greeting: &mut Vec<u8>,
) -> Result<(), Fail> {
    let fd = bound(caller, b"", 0)?;
    drop(caller.t_connect(fd, SERVER, b"", b"", Max::ALL)?);
    caller.t_snd(fd, name.as_bytes(), 0)?;
    caller.t_sndrel(fd)?;
    receive_all(caller, fd, greeting)
}

/// A client's thread, whose caller rests at the end too.
fn client_side<R: Wait + Sync>(client: &mut Client<R>) {
    client.ended = be_greeted(&mut client.caller, client.name, &mut client.greeting);
    client.caller.rest();
}

/// Adds a client for each name, with a caller that the first one splits off.
fn add_clients<'a, R: Wait>(
    first: &mut Caller<'a, R>,
    clients: &mut Vec<Client<'a, R>>,
) -> Result<(), AllocError> {
    for name in NAMES {
        if let Ok(caller) = first.split() {
            let greeting = Vec::new(caller.alloc());
            clients.push(Client {
                caller,
                name,
                greeting,
                ended: Ok(()),
            })?;
        }
    }
    Ok(())
}

/// Binds the server's endpoint, whose queue has room for a request of each client, and runs the server's thread and those of the
/// clients: how the server ended.
fn meet<'a, R: Threads + Wait + Sync>(
    rt: &'a R,
    mut server: Caller<'a, R>,
    clients: &mut Vec<Client<'a, R>>,
) -> Result<(), Fail> {
    let listener = bound(&mut server, SERVER, NAMES.len() as u32)?;
    add_clients(&mut server, clients)?;
    thread::scope(
        thread::scope_env(),
        rt,
        |scope| -> Result<Result<(), Fail>, AllocError> {
            let serving = scope.spawn(move || server_side(server, listener))?;
            let visit = |_place, client: &mut Client<R>| client_side(client);
            thread::for_each_mut(rt, clients.as_mut_slice(), NAMES.len(), &visit);
            Ok(serving.join(rt))
        },
    )?
}

/// Prints what each client was told, or why it gave up; whether all were greeted, and that was printed.
fn report<R: Print + Eprint>(rt: &R, clients: &[Client<R>]) -> bool {
    let mut greeted = true;
    for client in clients {
        let name = client.name;
        let printed = match client.ended {
            Ok(()) => {
                println!(rt;
                    "{name} was told \"{}\"",
                    client.greeting.as_slice().escape_ascii()
                )
            }
            Err(fail) => eprintln!(rt; "{name}: {fail}"),
        };
        greeted &= printed.is_ok() && client.ended.is_ok();
    }
    greeted
}

/// Runs the example, in a library of its own, which keeps no history: whether all clients were greeted, and that was printed.
pub(crate) fn run<R: Threads + Wait + Sync + Print + Eprint + AllocGlobal>(rt: &R) -> bool {
    let Ok((xti, seat)) = Xti::new(rt.alloc(), &Providers::usual(), false) else {
        return false;
    };
    let mut clients = Vec::new(rt.alloc());
    let greeted = match meet(rt, xti.caller(rt, rt.alloc(), seat), &mut clients) {
        Ok(()) => report(rt, clients.as_slice()),
        Err(fail) => {
            let _ = eprintln!(rt; "{fail}");
            false
        }
    };
    drop(clients);
    drop(xti);
    greeted
}
