//! A caller: a seat together with what each of its calls needs.

ghost use Rattle.std.specs.Prelude.{◌≡◌, length, true, IfOk, OnErr, MatchResult};
ghost use Rattle.xti_model.specs.declared.entry.Go.TheVariants.{Begin};
ghost use Rattle.xti_hall_rule.specs.declared.view.Mark.TheVariants.{Free, Resting};
ghost use Rattle.xti_hall.specs.Seats.{CutsOff, HasNoneToSpare, IsStanding, Looks, unfinished_bytes};
ghost use Rattle.xti_hall.specs.Words.{IsSameSeat};
ghost use Rattle.xti_gather.specs.Glances.{Finds, IsSameLater};
ghost use Rattle.xti_step.specs.Steps.{Later, MayGo, Tells};
ghost use Rattle.xti_gather.specs.Surveys.{all_events_after};
ghost use Rattle.xti_calls.specs.declared.answers.Fail.TheVariants.{Unfinished};
ghost use Rattle.xti_calls.specs.Calling.{IsUnfinished, Answered, Halted, where_left};
ghost use Rattle.xti_calls.specs.Library.{HasUnfinished, IsFree, IsMarkedAsBefore, IsOf};

use crate::answers::Fail;
use crate::calling::Halt;
use crate::library::Seat;
use crate::shared::Xti;
use std::alloc::{AllocError, Global};
use std::fmt;
use std::marker::Model;
use std::sync::Wait;
use xti_base::Fd;
use xti_gather::Glance;
use xti_hall::NoSeat;
use xti_model::{Applied, Call, Entries, Go, Reply};
use xti_step::Gate;

/// One who makes calls: a seat, its library, the thread's runtime and the allocator. Contracts see the seat.
///
/// Each call of XTI is a method, from `t_open` to `set_mode`, and none of these requires anything: where a call of the seat is
/// unfinished it answers `Fail::Unfinished`, and nothing is made. A caller makes its calls one after the other; other callers of
/// the library make theirs beside it, each on a thread of its own. `split` gives one more.
#[derive(Drop)]
pub struct Caller<'a, R> {
    pub(crate) xti: &'a Xti,
    pub(crate) rt: &'a R,
    pub(crate) alloc: Global,
    pub(crate) seat: Seat,
}

impl<'a, R> Model for Caller<'a, R> {
    ghost use Rattle.xti_hall.specs.Seats.{SeatView};
    ghost use Rattle.xti_calls.specs.Library.{IsOf};

    ghost Value = { SeatView };

    ghost view = { λ c. c.seat };

    ghost invariant = { λ c. IsOf c.xti.now c.seat };
}

impl<'a, R> fmt::Debug for Caller<'a, R> {
    fn fmt<W: fmt::Write>(&self, f: &mut fmt::Formatter<W>) -> fmt::Result {
        write!(f, "Caller {{ seat: {:?} }}", self.seat)
    }
}

impl Xti {
    /// A caller with this seat. Takes no memory.
    pub fn caller<'a, R>(&'a self, rt: &'a R, alloc: Global, seat: Seat) -> Caller<'a, R>
        requires { IsOf self.now seat }
        ensures { result ≡ seat }
    {
        Caller {
            xti: self,
            rt,
            alloc,
            seat,
        }
    }
}

impl<'a, R> Caller<'a, R> {
    /// The thread's runtime.
    pub fn rt(&self) -> &'a R {
        self.rt
    }

    /// The allocator.
    pub fn alloc(&self) -> Global {
        self.alloc
    }

    /// The seat, for `Xti::meet` and `Xti::end`. Takes no memory.
    pub fn into_seat(self) -> Seat
        ensures { result ≡ self.entry }
    {
        let Caller { seat, .. } = self;
        seat
    }

    /// The seat's number, as `Seat::number`.
    pub fn number(&self) -> u32
        ensures number { result ≡ self.now.view.number }
        ensures standing { IsStanding self.now.view }
    {
        self.seat.number()
    }

    /// How many entries of the history are the seat's own, as `Seat::steps`.
    pub fn steps(&self) -> u64
        ensures { result ≡ length self.now.view.mine }
    {
        self.seat.steps()
    }

    /// How many bytes were taken of the unfinished call, as `Seat::unfinished`; `None` exactly where there is none.
    pub fn unfinished(&self) -> Option<u32>
        ensures bytes { result ≡ unfinished_bytes self.now.view.mine }
        ensures standing { IsStanding self.now.view }
    {
        self.seat.unfinished()
    }

    /// Takes memory for receives of up to `count` bytes by `t_rcv_into`, which then takes none for their bytes, unless as much is
    /// kept. Without it the first receive of a size takes it. Where memory runs out all is as before.
    pub fn reserve(&mut self, count: usize) -> Result<(), AllocError>
        ensures same { self.new ≡ self.old }
    {
        self.seat.reserve(self.alloc, count)
    }

    /// No call of the seat is unfinished; else the error that every call in its typed form answers.
    pub(crate) fn ready(&self) -> Result<(), Fail>
        ensures { MatchResult result
            (λ _. IsFree self.now)
            (λ fail. (fail ≡ Unfinished) × HasUnfinished self.now) }
    {
        match self.seat.unfinished() {
            None => Ok(()),
            Some(_) => Err(Fail::Unfinished),
        }
    }

    /// What the endpoint with the descriptor shows, found without waiting for anybody, as `Xti::glance`.
    pub fn glance(&mut self, fd: Fd) -> Glance
        ensures seat { IsSameSeat self.old self.new }
        ensures same { IsSameLater self.old.view self.new.view }
        ensures finds { Finds self.old.view self.new.view fd result }
    {
        self.xti.glance(&mut self.seat, fd)
    }
}

impl<'a, R: Wait> Caller<'a, R> {
    /// All events that are pending at each of the descriptors at one point of the history, as `Xti::survey`.
    pub fn survey(&mut self, fds: &[Fd]) -> Result<Vec<Option<u32>>, AllocError>
        ensures seat { IsSameSeat self.old self.new }
        ensures same { IsSameLater self.old.view self.new.view }
        ensures refused { self.new.view.refused ≡ self.old.view.refused }
        ensures found { IfOk result
            (λ found. found.items ≡ all_events_after self.new.view fds.now) }
        ensures err { OnErr result (self.new ≡ self.old) }
    {
        self.xti.survey(self.rt, self.alloc, &mut self.seat, fds)
    }

    /// One more caller, with the least spare number of the seat, as `Xti::split`. Takes no memory.
    pub fn split(&mut self) -> Result<Caller<'a, R>, NoSeat>
        ensures seat { IsSameSeat self.old self.new }
        ensures seats { MatchResult result
            (λ fresh. CutsOff self.old self.new fresh)
            (λ _. HasNoneToSpare self.old self.new) }
        ensures standing { IsStanding self.new.view × IfOk result (λ fresh. IsStanding fresh.view) }
    {
        let seat = self.xti.split(self.rt, self.alloc, &mut self.seat)?;
        Ok(Caller {
            xti: self.xti,
            rt: self.rt,
            alloc: self.alloc,
            seat,
        })
    }

    /// Until the next call gives the journal back, the seat counts as resting, as after `Xti::rest`.
    pub fn rest(&mut self)
        ensures seat { IsSameSeat self.old self.new }
        ensures mark { self.new.view.mark ≡ Resting }
        ensures standing { IsStanding self.new.view }
        ensures looks { Looks self.old.view self.new.view }
    {
        self.xti.rest(self.rt, &mut self.seat);
    }

    /// A copy of the history at this point, as `Xti::history`. The library must keep it.
    pub fn history(&mut self) -> Result<Entries, AllocError>
        requires keeps { self.old.view.setting.keeps ≡ true }
        ensures seat { IsSameSeat self.old self.new }
        ensures looks { Looks self.old.view self.new.view }
        ensures standing { IsStanding self.new.view }
        ensures free { self.new.view.mark ≡ Free }
        ensures history { IfOk result (λ h. h ≡ self.new.view.seen) }
    {
        self.xti.history(self.rt, self.alloc, &mut self.seat)
    }
}

impl<'a, R: Wait + Sync> Caller<'a, R> {
    /// One step of a call, without waiting where it is blocked, as `Xti::step`.
    pub fn step<G: Gate>(&mut self, gate: &G, call: &Call, go: Go) -> Result<Applied, AllocError>
        requires go { MayGo self.old.view call.now go }
        ensures seat { IsSameSeat self.old self.new }
        ensures later { Later self.old.view self.new.view }
        ensures standing { IsStanding self.new.view }
        ensures ok { IfOk result (Tells self.old.view call.now go self.new.view) }
        ensures free { IfOk result (λ _. self.new.view.mark ≡ Free) }
        ensures err { OnErr result (self.new.view.mine ≡ self.old.view.mine) }
        ensures mark { OnErr result (IsMarkedAsBefore self.old self.new) }
    {
        self.xti
            .step(self.rt, self.alloc, &mut self.seat, gate, call, go)
    }

    /// All steps of a call, waiting where it is blocked, as `Xti::call`. No other call may be unfinished.
    pub fn call<G: Gate>(&mut self, gate: &G, made: &Call) -> Result<Reply, Halt>
        requires none { IsFree self.old }
        ensures seat { IsSameSeat self.old self.new }
        ensures later { Later self.old.view self.new.view }
        ensures standing { IsStanding self.new.view }
        ensures made { MatchResult result
            (Answered self.old.view made.now Begin self.new.view)
            (Halted self.old.view made.now Begin self.new.view) }
    {
        self.xti
            .call(self.rt, self.alloc, &mut self.seat, gate, made)
    }

    /// The steps that are left of the unfinished call, which this must be, waiting where it is blocked, as `Xti::resume`.
    pub fn resume<G: Gate>(&mut self, gate: &G, call: &Call) -> Result<Reply, Halt>
        requires unfinished { IsUnfinished self.old.view call.now }
        ensures seat { IsSameSeat self.old self.new }
        ensures later { Later self.old.view self.new.view }
        ensures standing { IsStanding self.new.view }
        ensures made { MatchResult result
            (Answered self.old.view call.now (where_left self.old.view) self.new.view)
            (Halted self.old.view call.now (where_left self.old.view) self.new.view) }
    {
        self.xti
            .resume(self.rt, self.alloc, &mut self.seat, gate, call)
    }
}
