//! t_listen.

ghost use Rattle.std.specs.Prelude.{◌≡◌, ◌∷◌, [], true, IfOk, OnOk, OnErr};
ghost use Rattle.std.specs.List.{list_any};
ghost use Rattle.xti_base.specs.Kinds.{same_state};
ghost use Rattle.xti_base.specs.declared.kinds.State.TheVariants.{T_IDLE, T_INCON};
ghost use Rattle.xti_model.specs.Endpoint.{ocnt};
ghost use Rattle.xti_model.specs.Events.{some_wait};
ghost use Rattle.xti_model.specs.World.{place_of};
ghost use Rattle.xti_model.specs.Calls.Listen as Listen;
ghost use Rattle.xti_end.specs.Frames.{indication_of, IsRequest};
ghost use Rattle.xti_end.specs.Held.{is_open, is_open_as, parts, with_parts, SameRoom};
ghost use Rattle.xti_end.specs.Taken.{listening, request_overflows, told_request, IsSureBy, MakesBy, StillBlocked, TellsRequest};

use crate::answers::done;
use crate::endpoint::Endpoint;
use crate::fields::{is_too_long, trimmed_copy};
use crate::indications::Ind;
use crate::providers::has_connections;
use std::alloc::AllocError;
use tpi_prim::primitive::Part;
use xti_base::{Fd, Seq, State};
use xti_model::{Providers, Reply, Tried};

/// Whether an endpoint in this state takes requests to connect.
pub fn is_listening(state: State) -> bool
    ensures { result ≡ list_any (same_state state) (T_IDLE ∷ T_INCON ∷ []) }
{
    state.is(State::T_IDLE) || state.is(State::T_INCON)
}

/// The address of the caller of a request.
pub fn caller_address(ind: &Ind) -> &[u8]
    requires { IsRequest ind.now }
    ensures { result.now ≡ (indication_of ind.now).address }
{
    ind.frame.part(Part::Src)
}

/// The options of a request.
fn options(ind: &Ind) -> &[u8]
    requires { IsRequest ind.now }
    ensures { result.now ≡ (indication_of ind.now).options }
{
    ind.frame.part(Part::Opt)
}

/// The sequence number of a request.
fn number(ind: &Ind) -> Seq
    requires { IsRequest ind.now }
    ensures { result.0 ≡ (indication_of ind.now).number }
{
    Seq(ind.frame.seq())
}

/// The data of a request.
fn data(ind: &Ind) -> &[u8]
    requires { IsRequest ind.now }
    ensures { result.now ≡ (indication_of ind.now).udata }
{
    ind.frame.user()
}

impl Endpoint {
    /// How many requests are outstanding at the open endpoint.
    pub fn ocnt(&self) -> usize
        requires { is_open self.now ≡ true }
        ensures { result ≡ ocnt (parts self.now) }
    {
        self.waiting.outstanding.len()
    }

    /// The oldest pending request, which must be there.
    fn oldest_request(&self) -> &Ind
        requires open { is_open self.now ≡ true }
        requires waits { some_wait (parts self.now).pending ≡ true }
        ensures request { indication_of result.now ≡ Listen.oldest (parts self.now) }
        ensures kind { IsRequest result.now }
    {
        match self.pending(0) {
            Some(ind) => ind,
            None => unreachable!(),
        }
    }

    /// Whether a field of the oldest pending request is longer than the caller takes.
    fn request_overflows(&self, amax: u32, omax: u32, umax: u32) -> bool
        requires open { is_open self.now ≡ true }
        requires waits { some_wait (parts self.now).pending ≡ true }
        ensures { result ≡ request_overflows amax omax umax (parts self.now) }
    {
        let ind = self.oldest_request();
        is_too_long(caller_address(ind), amax)
            || is_too_long(options(ind), omax)
            || is_too_long(data(ind), umax)
    }

    /// What is told of the oldest pending request.
    fn request_reply(&self, amax: u32, omax: u32, umax: u32) -> Result<Reply, AllocError>
        requires open { is_open self.now ≡ true }
        requires waits { some_wait (parts self.now).pending ≡ true }
        ensures { IfOk result (λ r. r ≡ told_request amax omax umax (parts self.now)) }
    {
        let ind = self.oldest_request();
        let addr = trimmed_copy(self.alloc, caller_address(ind), amax)?;
        let opt = or_drop!(trimmed_copy(self.alloc, options(ind), omax), addr);
        let udata = or_drop!(trimmed_copy(self.alloc, data(ind), umax), addr, opt);
        Ok(Reply::Listened {
            seq: number(ind),
            addr,
            opt,
            udata,
        })
    }

    /// The oldest pending request is outstanding; where memory runs out all is as before.
    fn take_request(&mut self) -> Result<(), AllocError>
        requires open { is_open self.old ≡ true }
        requires waits { some_wait (parts self.old).pending ≡ true }
        ensures ok { OnOk result (self.new ≡ with_parts Listen.listened self.old) }
        ensures err { OnErr result (self.new ≡ self.old) }
    {
        self.waiting.outstanding.add_room()?;
        let ind = self.waiting.pending.remove(0);
        self.waiting.outstanding.push(ind);
        self.set_state(State::T_INCON);
        Ok(())
    }

    /// Tells the oldest pending request, which must be there, or its number alone where a field is too long.
    fn tell_request(&mut self, p: &Providers, fd: Fd, amax: u32, omax: u32, umax: u32) -> Tried
        requires place { place_of p.now fd.0 ≡ self.old.place }
        requires open { is_open_as p.now fd.0 self.old ≡ true }
        requires waits { some_wait (parts self.old).pending ≡ true }
        ensures step { TellsRequest p.now fd.0 amax omax umax self.old self.new result }
        ensures still { StillBlocked self.old self.new result }
        ensures room { SameRoom self.old self.new }
        ensures err { OnErr result (self.new ≡ self.old) }
    {
        if self.request_overflows(amax, omax, umax) {
            let seq = number(self.oldest_request());
            self.take_request()?;
            return Ok(done(self, p, fd, Reply::Overflow { seq }));
        }
        let reply = self.request_reply(amax, omax, umax)?;
        or_drop!(self.take_request(), reply);
        Ok(done(self, p, fd, reply))
    }

    /// t_listen.
    pub(crate) fn listen(&mut self, p: &Providers, fd: Fd, amax: u32, omax: u32, umax: u32) -> Tried
        requires { place_of p.now fd.0 ≡ self.old.place }
        ensures step { MakesBy p.now (listening fd.0 amax omax umax) self.old self.new result }
        ensures still { StillBlocked self.old self.new result }
        ensures room { SameRoom self.old self.new }
        ensures err { OnErr result (self.new ≡ self.old) }
        ensures sure { IsSureBy p.now (listening fd.0 amax omax umax) self.old result }
    {
        refuse!(self, p, fd;
            TBADF if !self.is(p, fd),
            TNOTSUPPORT if !has_connections(self.prov()),
            TOUTSTATE if !is_listening(self.state()),
            TBADQLEN if self.qlen() == 0,
            TQFULL if self.ocnt() == self.qlen() as usize;
            look T_DISCONNECT if self.has_disconnect());
        once_there!(self, p, fd; self.has_pending() => self.tell_request(p, fd, amax, omax, umax))
    }
}
