//! A library and a seat of it.

ghost use Rattle.std.specs.Prelude.{◌≡◌};
ghost use Rattle.xti_hall.specs.Words.{IsSameSeat};
ghost use Rattle.xti_calls.specs.Library.{IsFree, IsOf};
ghost use Rattle.xti_sock.specs.Calling.{Calls};
ghost use Rattle.xti_copy.specs.Sharing.{end_of, sight_of, TellsStall};

use std::alloc::Global;
use std::marker::Model;
use std::sync::Wait;
use xti_calls::{Halt, Seat, Xti};
use xti_model::{Call, Reply};
use xti_sock::{CallEnd, Caller};
use xti_step::NoGate;

/// A library and a seat of it, which make the calls of sockets. Contracts see the seat.
///
/// Each thread has one of its own, over the same library. A call waits where it is blocked, as the library's calls do.
#[derive(Drop)]
pub struct Shared<'a> {
    xti: &'a Xti,
    seat: Seat,
}

impl<'a> Model for Shared<'a> {
    ghost use Rattle.xti_hall.specs.Seats.{SeatView};
    ghost use Rattle.xti_calls.specs.Library.{IsOf};

    ghost Value = { SeatView };

    ghost view = { λ s. s.seat };

    ghost invariant = { λ s. IsOf s.xti.now s.seat };
}

impl<'a> Shared<'a> {
    /// The library with this seat, which it made. Takes no memory.
    pub fn new(xti: &'a Xti, seat: Seat) -> Shared<'a>
        requires { IsOf xti.now seat }
        ensures { result ≡ seat }
    {
        Shared { xti, seat }
    }

    /// Its seat. Takes no memory.
    pub fn into_seat(self) -> Seat
        ensures { result ≡ self.entry }
    {
        let Shared { seat, .. } = self;
        seat
    }

    /// All steps of a call, where none is unfinished, as `Xti::call`; the calls of sockets are made by it.
    ///
    /// `made`: what `Caller::call` says. `stall`: where it is stalled, each other seat that is out rests, or waits for what is
    /// blocked too.
    pub fn make<R: Wait + Sync>(
        &mut self,
        rt: &R,
        alloc: Global,
        made: &Call,
    ) -> Result<Reply, CallEnd>
        requires free { IsFree self.old }
        ensures made { Calls (sight_of self.old.view) made.now result (sight_of self.new.view) }
        ensures seat { IsSameSeat self.old self.new }
        ensures stall { TellsStall result self.new.view }
    {
        match self.xti.call(rt, alloc, &mut self.seat, &NoGate, made) {
            Ok(reply) => Ok(reply),
            Err(halt) => Err(end_of(halt)),
        }
    }
}

/// What a stop of a call is to a socket.
fn end_of(halt: Halt) -> CallEnd
    ensures { result ≡ end_of halt }
{
    match halt {
        Halt::OutOfMemory { taken } => CallEnd::OutOfMemory { taken },
        Halt::Stalled { taken, stall } => CallEnd::Stalled {
            taken,
            at: stall.at,
        },
    }
}

impl<'a> Caller for Shared<'a> {
    ghost use Rattle.xti_copy.specs.Sharing.{sight_of};

    ghost sight = { λ s. sight_of s.view };

    fn call<R: Wait + Sync>(
        &mut self,
        rt: &R,
        alloc: Global,
        made: &Call,
    ) -> Result<Reply, CallEnd> {
        self.make(rt, alloc, made)
    }

    fn free(&self) -> bool {
        self.seat.unfinished().is_none()
    }
}
