//! The library: a hall and its seats.

ghost use Rattle.std.specs.Prelude.{◌≡◌, length, true, IfOk, OnErr, MatchResult};
ghost use mathlib.Core.List.{IsPrefix};
ghost use Rattle.xti_model.specs.declared.entry.Go.TheVariants.{Begin};
ghost use Rattle.xti_model.specs.Profile.{valid};
ghost use Rattle.xti_hall_rule.specs.Rule.{newcomer};
ghost use Rattle.xti_hall_rule.specs.declared.view.Mark.TheVariants.{Free, Resting};
ghost use Rattle.xti_hall.specs.Seats.{AreOfOneHall, CutsOff, HasNoneToSpare, Looks, Meets, IsStanding, unfinished_bytes};
ghost use Rattle.xti_hall.specs.Words.{IsSameSeat};
ghost use Rattle.xti_gather.specs.Cells.{whole};
ghost use Rattle.xti_gather.specs.Glances.{Finds, IsSameLater};
ghost use Rattle.xti_step.specs.Steps.{Later, MayGo, Tells};
ghost use Rattle.xti_gather.specs.Surveys.{all_events_after};
ghost use Rattle.xti_calls.specs.Calling.{IsUnfinished, Answered, Halted, where_left};
ghost use Rattle.xti_calls.specs.Library.{IsMarkedAsBefore, IsOf, MayCall, keeps_of, providers_of};

use crate::calling::{Halt, call, resume};
use crate::shared::Xti;
use std::alloc::{AllocError, Global};
use std::fmt;
use std::marker::Model;
use std::sync::Wait;
use xti_base::{BYTES_IN_VALUE, Fd, Octets, let_go};
use xti_gather::{Cell, Glance, glance, nothing_lent, open_hall, survey};
use xti_hall::{Ended as EndedHall, NoSeat, Seat as HallSeat};
use xti_lent::Lent;
use xti_model::{Applied, Call, Cells, Entries, Go, Providers, Reply};
use xti_step::{Gate, step};

/// One caller's token: a seat of the library's hall, which holds nothing between two calls, with room for the cells of a step
/// and the numbers of those of the last one.
///
/// A seat makes its calls one after the other, and begins one only where none is unfinished (`unfinished` is `None`). Other
/// seats make theirs beside it. Each step takes its turn at the endpoints that it touches and at the history, so a call that
/// isn't blocked may still wait for the step of another seat.
#[derive(Drop)]
pub struct Seat {
    seat: HallSeat<Cell>,
    lent: Lent,
    first: Cells,
}

impl Model for Seat {
    ghost use Rattle.xti_hall.specs.Seats.{SeatView};
    ghost use Rattle.xti_calls.specs.Library.{IsReady};

    ghost Value = { SeatView };

    ghost view = { λ s. s.seat };

    ghost invariant = { λ s. IsReady s.seat.view s.lent s.first };
}

impl Seat {
    /// The seat's number, from 0 on, by which entries of the history name their worker. `standing` is true of every seat. Takes
    /// no memory.
    pub fn number(&self) -> u32
        ensures number { result ≡ self.now.view.number }
        ensures standing { IsStanding self.now.view }
    {
        self.seat.number()
    }

    /// How many entries of the history are the seat's own: one for each step that it made, refused ones among them. Takes no
    /// memory.
    pub fn steps(&self) -> u64
        ensures { result ≡ length self.now.view.mine }
    {
        self.seat.steps()
    }

    /// How many bytes were taken of the seat's unfinished call, which is 0 of a `t_connect`; `None` exactly where it has none.
    /// Takes no memory.
    pub fn unfinished(&self) -> Option<u32>
        ensures bytes { result ≡ unfinished_bytes self.now.view.mine }
        ensures standing { IsStanding self.now.view }
    {
        self.seat.unfinished()
    }

    /// Takes memory for the bytes of receives, of up to so many at a time, unless as much is kept.
    pub(crate) fn reserve(&mut self, alloc: Global, count: usize) -> Result<(), AllocError>
        ensures { self.new ≡ self.old }
    {
        self.lent.keep_room(Vec::with_capacity(alloc, count)?);
        Ok(())
    }

    /// Keeps the memory in which received bytes stood for those of the next receive. Takes no memory.
    pub(crate) fn keep_room(&mut self, bytes: Octets)
        ensures { self.new ≡ self.old }
    {
        // As many stand in the value itself.
        if bytes.as_slice().len() <= BYTES_IN_VALUE {
            drop(bytes);
            return;
        }
        if let Ok(room) = bytes.into_vec() {
            self.lent.keep_room(room);
        }
    }
}

impl fmt::Debug for Seat {
    fn fmt<W: fmt::Write>(&self, f: &mut fmt::Formatter<W>) -> fmt::Result {
        write!(f, "Seat {{ number: {} }}", self.number())
    }
}

/// A library at its end, and the seat that took its history. Contracts see the seat, which has seen the whole history.
#[derive(Drop)]
pub struct Ended {
    hall: EndedHall<Cell>,
}

impl Model for Ended {
    ghost use Rattle.xti_hall.specs.Seats.{SeatView};

    ghost Value = { SeatView };

    ghost view = { λ e. e.hall };
}

impl fmt::Debug for Ended {
    fn fmt<W: fmt::Write>(&self, f: &mut fmt::Formatter<W>) -> fmt::Result {
        f.write_str("Ended")
    }
}

impl Ended {
    /// Another seat of the library, which has then seen the whole history. `whole`: it hadn't seen more. Takes no memory, and
    /// waits for nobody.
    pub fn meet(&mut self, other: Seat) -> Seat
        requires { AreOfOneHall other self.old }
        ensures seat { IsSameSeat other result × (self.new ≡ self.old) }
        ensures met { Meets other.view self.old.view result.view }
        ensures whole { IsPrefix other.view.seen self.old.view.seen }
        ensures standing { IsStanding result.view }
    {
        let Seat { seat, lent, first } = other;
        let seat = self.hall.meet(seat);
        Seat { seat, lent, first }
    }

    /// The history. Takes no memory.
    pub fn into_history(self) -> Entries
        ensures { result ≡ self.view.seen }
    {
        let Ended { hall } = self;
        hall.into_history()
    }
}

impl Xti {
    /// The library in its opening world, in which no endpoint was opened, and the seat with number 0, whose spare numbers are 1
    /// to 32. The providers' values must be valid, as the usual ones are. The error says that memory ran out.
    ///
    /// `keeps` says whether the history is kept, so that `history` and `end` can hand it out. Where it is, each step leaves an
    /// entry for good; where it isn't, memory doesn't grow with the calls, and what a call is told is the same.
    pub fn new(alloc: Global, p: &Providers, keeps: bool) -> Result<(Xti, Seat), AllocError>
        requires { valid p.now ≡ true }
        ensures providers { IfOk result (λ r. providers_of r.0 ≡ p.now) }
        ensures keeps { IfOk result (λ r. keeps_of r.0 ≡ keeps) }
        ensures seat { IfOk result (λ r. IsOf r.0 r.1 × (r.1.view ≡ newcomer (whole p.now keeps))) }
    {
        let (hall, seat) = open_hall(alloc, p, keeps)?;
        let lent = nothing_lent(alloc, p);
        let first = Cells::new();
        let xti = Xti {
            hall,
            providers: *p,
        };
        Ok((xti, Seat { seat, lent, first }))
    }

    /// The providers' values that the library was made with. Takes no memory.
    pub fn providers(&self) -> &Providers
        ensures { result.now ≡ providers_of self.now }
    {
        &self.providers
    }

    /// Whether the history is kept, so that it can be handed out. Takes no memory.
    pub fn keeps(&self) -> bool
        ensures { result ≡ keeps_of self.now }
    {
        self.hall.keeps()
    }

    /// One step of a call, without waiting where it is blocked.
    ///
    /// `go` is how far the call has come: `Begin`, or `More` with the bytes that its steps have taken. Where the step is
    /// blocked (`Applied::Blocked`) or memory runs out (the error), no entry was made. `gate` is asked while the seat holds
    /// just the cells that the call touches.
    pub fn step<G: Gate, R: Wait + Sync>(
        &self,
        rt: &R,
        alloc: Global,
        seat: &mut Seat,
        gate: &G,
        call: &Call,
        go: Go,
    ) -> Result<Applied, AllocError>
        requires seat { IsOf self.now seat.old }
        requires go { MayGo seat.old.view call.now go }
        ensures seat { IsSameSeat seat.old seat.new }
        ensures later { Later seat.old.view seat.new.view }
        ensures standing { IsStanding seat.new.view }
        ensures ok { IfOk result (Tells seat.old.view call.now go seat.new.view) }
        ensures free { IfOk result (λ _. seat.new.view.mark ≡ Free) }
        ensures err { OnErr result (seat.new.view.mine ≡ seat.old.view.mine) }
        ensures mark { OnErr result (IsMarkedAsBefore seat.old seat.new) }
    {
        let (applied, _at) = step(
            rt,
            alloc,
            &self.hall,
            &mut seat.seat,
            &mut seat.lent,
            &mut seat.first,
            gate,
            call,
            go,
        )?;
        Ok(applied)
    }

    /// What the endpoint with the descriptor shows, found without waiting for anybody: its state, and the first event that is
    /// pending, as `t_look` would tell it. Unlike `t_look` it makes no entry and clears no event.
    ///
    /// Each cell that a look touches is tried once. Where another seat's step holds one just then, the answer is `Busy`, with the
    /// cell's number: a descriptor's place, or the number of places for the switch. Else the seat has then seen the whole history,
    /// and the answer tells the world after its `at` entries. A seat may glance while a call of its own is unfinished. Takes no
    /// memory.
    pub fn glance(&self, seat: &mut Seat, fd: Fd) -> Glance
        requires { IsOf self.now seat.old }
        ensures seat { IsSameSeat seat.old seat.new }
        ensures same { IsSameLater seat.old.view seat.new.view }
        ensures finds { Finds seat.old.view seat.new.view fd result }
    {
        glance(&self.hall, &mut seat.seat, &mut seat.lent, fd)
    }

    /// All events that are pending at each of the descriptors, as the sum of their numbers; `None` exactly where no endpoint is
    /// open with it. All is told of one point of the history, which is all that the seat has then seen.
    ///
    /// It waits for the steps of other seats that hold a cell which a look at one of the descriptors touches, and for nothing
    /// else. Like `glance` it makes no entry and clears no event, and a seat may survey while a call of its own is unfinished. The
    /// error says that memory ran out; then all is as before.
    pub fn survey<R: Wait>(
        &self,
        rt: &R,
        alloc: Global,
        seat: &mut Seat,
        fds: &[Fd],
    ) -> Result<Vec<Option<u32>>, AllocError>
        requires { IsOf self.now seat.old }
        ensures seat { IsSameSeat seat.old seat.new }
        ensures same { IsSameLater seat.old.view seat.new.view }
        ensures refused { seat.new.view.refused ≡ seat.old.view.refused }
        ensures found { IfOk result
            (λ found. found.items ≡ all_events_after seat.new.view fds.now) }
        ensures err { OnErr result (seat.new ≡ seat.old) }
    {
        survey(rt, alloc, &self.hall, &mut seat.seat, &mut seat.lent, fds)
    }

    /// All steps of a call by a seat that has none unfinished, waiting where it is blocked.
    ///
    /// The reply may be an error of XTI (`Reply::Refused`, `Look`, `Overflow`), and then has its entry in the history like any
    /// other; `Halt` says why the call stopped before its reply. The methods of `Caller` from `t_open` to `set_mode` are this one,
    /// each for its own call, with arguments and answers in types of their own, and without a gate.
    pub fn call<G: Gate, R: Wait + Sync>(
        &self,
        rt: &R,
        alloc: Global,
        seat: &mut Seat,
        gate: &G,
        made: &Call,
    ) -> Result<Reply, Halt>
        requires seat { MayCall self.now seat.old }
        ensures seat { IsSameSeat seat.old seat.new }
        ensures later { Later seat.old.view seat.new.view }
        ensures standing { IsStanding seat.new.view }
        ensures made { MatchResult result
            (Answered seat.old.view made.now Begin seat.new.view)
            (Halted seat.old.view made.now Begin seat.new.view) }
    {
        call(
            rt,
            alloc,
            &self.hall,
            &mut seat.seat,
            &mut seat.lent,
            &mut seat.first,
            gate,
            made,
        )
    }

    /// The steps that are left of the seat's unfinished call, which this must be, waiting where it is blocked.
    ///
    /// A call is unfinished where only a part of it was made: the request of a blocking `t_connect`, or some bytes of a
    /// blocking `t_snd` or `t_sndv`. It is handed over once more as a value of `Call`, and answers as `call` does.
    pub fn resume<G: Gate, R: Wait + Sync>(
        &self,
        rt: &R,
        alloc: Global,
        seat: &mut Seat,
        gate: &G,
        call: &Call,
    ) -> Result<Reply, Halt>
        requires seat { IsOf self.now seat.old }
        requires unfinished { IsUnfinished seat.old.view call.now }
        ensures seat { IsSameSeat seat.old seat.new }
        ensures later { Later seat.old.view seat.new.view }
        ensures standing { IsStanding seat.new.view }
        ensures made { MatchResult result
            (Answered seat.old.view call.now (where_left seat.old.view) seat.new.view)
            (Halted seat.old.view call.now (where_left seat.old.view) seat.new.view) }
    {
        resume(
            rt,
            alloc,
            &self.hall,
            &mut seat.seat,
            &mut seat.lent,
            &mut seat.first,
            gate,
            call,
        )
    }

    /// A seat with the least spare number of the given one, which has seen as much, made no call and has no spare
    /// number. `NoSeat` exactly where it has no spare number; then it stays as it was. Takes no memory.
    pub fn split<R: Wait>(&self, rt: &R, alloc: Global, seat: &mut Seat) -> Result<Seat, NoSeat>
        requires { IsOf self.now seat.old }
        ensures seat { IsSameSeat seat.old seat.new }
        ensures seats { MatchResult result
            (λ fresh. CutsOff seat.old seat.new fresh)
            (λ _. HasNoneToSpare seat.old seat.new) }
        ensures standing { IsStanding seat.new.view × IfOk result (λ fresh. IsStanding fresh.view) }
    {
        let fresh = self.hall.split(rt, &mut seat.seat)?;
        let lent = nothing_lent(alloc, seat.lent.providers());
        Ok(Seat {
            seat: fresh,
            lent,
            first: Cells::new(),
        })
    }

    /// Until its next call gives the journal back, the seat counts as resting.
    ///
    /// A caller that makes no more calls, or none for now, lets its seat rest: others that wait then don't wait for it before
    /// they find that nobody can go on.
    pub fn rest<R: Wait>(&self, rt: &R, seat: &mut Seat)
        requires { IsOf self.now seat.old }
        ensures seat { IsSameSeat seat.old seat.new }
        ensures mark { seat.new.view.mark ≡ Resting }
        ensures standing { IsStanding seat.new.view }
        ensures looks { Looks seat.old.view seat.new.view }
    {
        self.hall.rest(rt, &mut seat.seat);
    }

    /// The first seat, which has then seen what both had seen. Takes no memory, and waits for nobody.
    pub fn meet(&self, seat: Seat, other: &mut Seat) -> Seat
        requires { IsOf self.now seat × IsOf self.now other.old }
        ensures seat { IsSameSeat seat result × (other.new ≡ other.old) }
        ensures met { Meets seat.view other.old.view result.view }
        ensures standing { IsStanding result.view }
    {
        let Seat { seat, lent, first } = seat;
        let seat = self.hall.meet(seat, &mut other.seat);
        Seat { seat, lent, first }
    }

    /// Ends the library, which must have kept its history: that is handed out and not copied, all of which the seat has then
    /// seen, and no further call can be made. Takes no memory.
    pub fn end<R: Wait>(self, rt: &R, seat: Seat) -> Ended
        requires seat { IsOf self seat }
        requires keeps { keeps_of self ≡ true }
        ensures seat { IsSameSeat seat result }
        ensures looks { Looks seat.view result.view }
        ensures standing { IsStanding result.view }
    {
        let Xti { hall, .. } = self;
        let Seat { seat, lent, .. } = seat;
        let_go(lent);
        Ended {
            hall: hall.end(rt, seat),
        }
    }

    /// A copy of the history at this point, which is what the seat has then seen. The library must keep it.
    pub fn history<R: Wait>(
        &self,
        rt: &R,
        alloc: Global,
        seat: &mut Seat,
    ) -> Result<Entries, AllocError>
        requires seat { IsOf self.now seat.old }
        requires keeps { keeps_of self.now ≡ true }
        ensures seat { IsSameSeat seat.old seat.new }
        ensures looks { Looks seat.old.view seat.new.view }
        ensures standing { IsStanding seat.new.view }
        ensures free { seat.new.view.mark ≡ Free }
        ensures history { IfOk result (λ h. h ≡ seat.new.view.seen) }
    {
        self.hall.history(rt, alloc, &mut seat.seat)
    }
}
