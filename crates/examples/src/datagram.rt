//! A datagram that is sent and received on one thread, by steps of a `World`.
//!
//! A value of many parts, as a world or a reply, is lent, or let go by `drop`: that is proved once for its type, and not once for
//! each place where it is let go.

mod answers;
mod calls;

use crate::datagram::answers::{Failure, answer, descriptor, received};
use crate::datagram::calls::{bind, open, receive, send};
use std::alloc::Global;
use std::io::Print;
use xti_base::Fd;
use xti_core::World;
use xti_model::{Call, Go, Providers, Reply};

/// Makes a call in one step.
fn make(world: &mut World, call: Call) -> Result<Reply, Failure> {
    let applied = world.step(&call, Go::Begin);
    drop(call);
    answer(applied?)
}

/// Prints the datagram of a reply.
fn show<R: Print>(rt: &R, reply: &Reply) -> Result<(), Failure> {
    println!(rt; "received {}", received(reply)?)?;
    Ok(())
}

/// Receives a datagram and prints it, or the error with which that is refused.
fn receive_one<R: Print>(rt: &R, world: &mut World, fd: Fd) -> Result<(), Failure> {
    match make(world, receive(fd)) {
        Ok(reply) => {
            let shown = show(rt, &reply);
            drop(reply);
            shown
        }
        Err(Failure::Refused(errno)) => Ok(println!(rt; "refused with {}", errno.name())?),
        Err(other) => Err(other),
    }
}

/// Sends a datagram to its own address, receives it, and asks for one more, of which there is none.
fn exchange<R: Print>(rt: &R, alloc: Global, world: &mut World) -> Result<(), Failure> {
    let fd = descriptor(make(world, open())?)?;
    drop(make(world, bind(alloc, fd, b"a")?)?);
    drop(make(world, send(alloc, fd, b"a", b"hello")?)?);
    receive_one(rt, world, fd)?;
    receive_one(rt, world, fd)
}

/// Runs the example, in a world of its own: whether all was done, and printed.
pub(crate) fn run<R: Print + AllocGlobal>(rt: &R) -> bool {
    let Ok(mut world) = World::fresh(rt.alloc(), &Providers::usual()) else {
        return false;
    };
    let ended = exchange(rt, rt.alloc(), &mut world);
    drop(world);
    ended.is_ok()
}
