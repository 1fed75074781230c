//! What a step answered, as a result with an error of the example's own.

use std::alloc::AllocError;
use std::{io, str};
use xti_base::{Errno, Event, Fd};
use xti_model::{Applied, Outcome, Reply};

/// Why a call has no answer.
#[derive(Clone, Copy)]
pub enum Failure {
    /// The error that t_errno has in C.
    Refused(Errno),
    /// TLOOK, with the event that t_look would tell.
    Look(Event),
    /// The step is blocked, or is a part of a call.
    NotDone,
    /// The answer is that of another call.
    OtherAnswer,
    /// Out of memory.
    OutOfMemory,
    /// Printing failed.
    Printing,
}

impl From<AllocError> for Failure {
    fn from(_error: AllocError) -> Failure {
        Failure::OutOfMemory
    }
}

impl From<io::Error> for Failure {
    fn from(_error: io::Error) -> Failure {
        Failure::Printing
    }
}

/// What a call answered that is done and wasn't refused.
pub fn answer(applied: Applied) -> Result<Reply, Failure> {
    match applied {
        Applied::Step { outcome, .. } => match outcome {
            Outcome::Done(Reply::Refused { errno }) => Err(Failure::Refused(errno)),
            Outcome::Done(Reply::Look { event }) => Err(Failure::Look(event)),
            Outcome::Done(Reply::Overflow { .. }) => Err(Failure::Refused(Errno::TBUFOVFLW)),
            Outcome::Done(reply) => Ok(reply),
            Outcome::Part { .. } => Err(Failure::NotDone),
        },
        Applied::Blocked => Err(Failure::NotDone),
    }
}

/// The descriptor that t_open answered.
pub fn descriptor(reply: Reply) -> Result<Fd, Failure> {
    let fd = match &reply {
        Reply::Opened { fd } => Ok(*fd),
        _ => Err(Failure::OtherAnswer),
    };
    drop(reply);
    fd
}

/// The bytes of a datagram, as text.
pub fn received(reply: &Reply) -> Result<&str, Failure> {
    match reply {
        Reply::UData { bytes, .. } => match str::from_utf8(bytes.as_slice()) {
            Ok(text) => Ok(text),
            Err(_) => Err(Failure::OtherAnswer),
        },
        _ => Err(Failure::OtherAnswer),
    }
}
