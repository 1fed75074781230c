//! Calls that are done by one step.

ghost use Rattle.std.specs.Prelude.{◌≡◌, IsSome, Some, IfOk, OnOk, OnErr};
ghost use Rattle.xti_gbn.specs.Calls.{opening_call, binding_call, sending_call, receiving_call};
ghost use Rattle.xti_gbn.specs.Answers.{Sends, reply_of, opened_of, datagram_of, IsAnswered, IsMade, Answers, Opens, IsOpened, Gives, IsGiven};

use crate::datagrams::calls::{bind, open, receive, send};
use std::alloc::{AllocError, Global};
use xti_base::{Fd, Octets, let_go};
use xti_core::World;
use xti_model::{Applied, Call, Go, Outcome, Reply};

// The answer of a step that is done.
fn reply(applied: Applied) -> Reply
    requires { IsSome (reply_of applied) }
    ensures { reply_of applied ≡ Some result }
{
    match applied {
        Applied::Step {
            outcome: Outcome::Done(reply),
            ..
        } => reply,
        Applied::Step {
            outcome: Outcome::Part { .. },
            ..
        } => unreachable!(),
        Applied::Blocked => unreachable!(),
    }
}

// Makes a call that is done by one step, and answers what it does. After an error the world is as before.
fn make(world: &mut World, call: &Call) -> Result<Reply, AllocError>
    requires { IsAnswered world.old call.now }
    ensures answers { IfOk result (λ reply. Answers world.old call.now reply world.new) }
    ensures err { OnErr result (world.new ≡ world.old) }
{
    let applied = world.step(call, Go::Begin)?;
    Ok(reply(applied))
}

// The same of a call that is let go.
fn make_once(world: &mut World, call: Call) -> Result<Reply, AllocError>
    requires { IsAnswered world.old call }
    ensures answers { IfOk result (λ reply. Answers world.old call reply world.new) }
    ensures err { OnErr result (world.new ≡ world.old) }
{
    let made = make(world, &call);
    let_go(call);
    made
}

// The same of a call whose answer tells nothing.
fn make_plain(world: &mut World, call: Call) -> Result<(), AllocError>
    requires { IsAnswered world.old call }
    ensures made { OnOk result (IsMade world.old call world.new) }
    ensures err { OnErr result (world.new ≡ world.old) }
{
    let reply = make_once(world, call)?;
    let_go(reply);
    Ok(())
}

fn opened(reply: Reply) -> Fd
    requires { IsSome (opened_of reply) }
    ensures { opened_of reply ≡ Some result }
{
    match reply {
        Reply::Opened { fd } => fd,
        _ => unreachable!(),
    }
}

fn datagram(reply: Reply) -> Octets
    requires { IsSome (datagram_of reply) }
    ensures { datagram_of reply ≡ Some result }
{
    match reply {
        Reply::UData { bytes, .. } => bytes,
        _ => unreachable!(),
    }
}

/// Opens an endpoint, and answers its descriptor.
pub(crate) fn open_one(world: &mut World) -> Result<Fd, AllocError>
    requires { IsOpened world.old }
    ensures { IfOk result (λ fd. Opens world.old fd world.new) }
{
    let reply = make_once(world, open())?;
    Ok(opened(reply))
}

/// Binds an endpoint to an address.
pub(crate) fn bind_one(
    alloc: Global,
    world: &mut World,
    fd: Fd,
    address: &[u8],
) -> Result<(), AllocError>
    requires { IsAnswered world.old (binding_call fd address.now) }
    ensures { OnOk result (IsMade world.old (binding_call fd address.now) world.new) }
{
    let call = bind(alloc, fd, address)?;
    make_plain(world, call)
}

/// Sends a datagram to an address. After an error the world is as before.
pub(crate) fn send_one(
    alloc: Global,
    world: &mut World,
    fd: Fd,
    address: &[u8],
    bytes: &[u8],
) -> Result<(), AllocError>
    requires { IsAnswered world.old (sending_call fd address.now bytes.now) }
    ensures made { OnOk result (Sends world.old fd address.now bytes.now world.new) }
    ensures err { OnErr result (world.new ≡ world.old) }
{
    let call = send(alloc, fd, address, bytes)?;
    make_plain(world, call)
}

/// Receives a datagram, and answers its bytes. After an error the world is as before.
pub(crate) fn receive_one(world: &mut World, fd: Fd) -> Result<Octets, AllocError>
    requires { IsGiven world.old fd }
    ensures gives { IfOk result (λ bytes. Gives world.old fd bytes world.new) }
    ensures err { OnErr result (world.new ≡ world.old) }
{
    let reply = make_once(world, receive(fd))?;
    Ok(datagram(reply))
}
