//! How the two ends are made and connected.

ghost use Rattle.std.specs.Prelude.{◌≡◌, ◌++◌, [], IfOk, OnOk};
ghost use Rattle.xti_laws_streams.specs.Copying.{before};
ghost use Rattle.xti_copy.specs.Ends.{accepting, asking, asking_sock, client_sock, connected, listening};
ghost use Rattle.xti_copy.specs.Ends.{listening_sock, receiver_sock};
ghost use Rattle.xti_copy.specs.Going.{Comes, IsAt};

use crate::Rider;
use crate::settling::{made, waiting};
use std::alloc::{AllocError, Global};
use std::sync::Wait;
use xti_sock::Sock;

/// The listener's address.
const SERVICE: &[u8] = b"srv";

/// Two ends of a connection, and the listener by which they were connected.
#[derive(Drop)]
pub(crate) struct Ends {
    pub(crate) listener: Sock,
    pub(crate) client: Sock,
    pub(crate) receiver: Sock,
}

/// A socket that listens at the service's address.
fn listen<R: Wait + Sync>(io: &mut Rider, rt: &R, alloc: Global) -> Result<Sock, AllocError>
    requires at { IsAt [] io.old }
    requires comes { Comes [] listening }
    ensures at { OnOk result (IsAt listening io.new) }
    ensures sock { IfOk result (λ sock. sock ≡ listening_sock) }
{
    let mut sock = made(Sock::socket(io, rt, alloc, true))?;
    made(sock.bind(io, rt, alloc, SERVICE))?;
    made(sock.listen(io, rt, alloc, 1))?;
    Ok(sock)
}

/// A socket that has asked the service for a connection.
fn ask<R: Wait + Sync>(io: &mut Rider, rt: &R, alloc: Global) -> Result<Sock, AllocError>
    requires at { IsAt listening io.old }
    requires comes { Comes listening asking }
    ensures at { OnOk result (IsAt (listening ++ asking) io.new) }
    ensures sock { IfOk result (λ sock. sock ≡ asking_sock) }
{
    let mut sock = made(Sock::socket(io, rt, alloc, true))?;
    waiting(sock.connect(io, rt, alloc, SERVICE))?;
    Ok(sock)
}

/// The end that accepts what the client asked for; the client is connected then.
fn accept<R: Wait + Sync>(
    listener: &mut Sock,
    client: &mut Sock,
    io: &mut Rider,
    rt: &R,
    alloc: Global,
) -> Result<Sock, AllocError>
    requires listener { listener.old ≡ listening_sock }
    requires client { client.old ≡ asking_sock }
    requires at { IsAt (listening ++ asking) io.old }
    requires comes { Comes (listening ++ asking) accepting }
    ensures listener { OnOk result (listener.new ≡ listening_sock) }
    ensures client { OnOk result (client.new ≡ client_sock) }
    ensures receiver { IfOk result (λ sock. sock ≡ receiver_sock) }
    ensures at { OnOk result (IsAt before io.new) }
{
    let receiver = made(listener.accept(io, rt, alloc, true))?;
    made(client.finish(io, rt, alloc))?;
    Ok(receiver)
}

/// Two ends that are connected.
pub(crate) fn connect<R: Wait + Sync>(
    io: &mut Rider,
    rt: &R,
    alloc: Global,
) -> Result<Ends, AllocError>
    requires at { IsAt [] io.old }
    requires comes { Comes [] before }
    ensures at { OnOk result (IsAt before io.new) }
    ensures ends { IfOk result (λ ends. ends ≡ connected) }
{
    let mut listener = listen(io, rt, alloc)?;
    let mut client = ask(io, rt, alloc)?;
    let receiver = accept(&mut listener, &mut client, io, rt, alloc)?;
    Ok(Ends {
        listener,
        client,
        receiver,
    })
}
