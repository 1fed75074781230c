//! t_rcvconnect.

ghost use Rattle.std.specs.Prelude.{◌≡◌, true, is_some, IfOk, OnErr};
ghost use Rattle.tpi_grammar.specs.declared.kind.Kind.TheVariants.{T_CONN_CON};
ghost use Rattle.tpi_prim.specs.Fields.{kind_in};
ghost use Rattle.xti_model.specs.World.{place_of};
ghost use Rattle.xti_model.specs.Calls.Connect as Connect;
ghost use Rattle.xti_end.specs.Frames.{confirmation_in};
ghost use Rattle.xti_end.specs.Held.{is_open, is_open_as, parts, with_parts, SameRoom};
ghost use Rattle.xti_end.specs.Taken.{confirmation_of, confirmation_overflows, confirming, told_confirmation, IsSureBy, MakesBy, StillBlocked, TellsConfirmation};

use crate::answers::done;
use crate::endpoint::Endpoint;
use crate::fields::{is_too_long, trimmed_copy};
use crate::providers::has_connections;
use std::alloc::AllocError;
use tpi_prim::Frame;
use tpi_prim::primitive::Part;
use xti_base::{Fd, Seq, State};
use xti_model::{Providers, Reply, Tried};

/// The address of who answered.
fn address(frame: &Frame) -> &[u8]
    requires { kind_in frame.now ≡ T_CONN_CON }
    ensures { result.now ≡ (confirmation_in frame.now).address }
{
    frame.part(Part::Res)
}

/// The options of the answer.
fn options(frame: &Frame) -> &[u8]
    requires { kind_in frame.now ≡ T_CONN_CON }
    ensures { result.now ≡ (confirmation_in frame.now).options }
{
    frame.part(Part::Opt)
}

/// The data of the answer.
fn data(frame: &Frame) -> &[u8]
    requires { kind_in frame.now ≡ T_CONN_CON }
    ensures { result.now ≡ (confirmation_in frame.now).udata }
{
    frame.user()
}

impl Endpoint {
    /// The confirmation, which must be there.
    fn the_confirmation(&self) -> &Frame
        requires open { is_open self.now ≡ true }
        requires waits { is_some (parts self.now).confirmation ≡ true }
        ensures confirmation { confirmation_in result.now ≡ confirmation_of (parts self.now) }
        ensures kind { kind_in result.now ≡ T_CONN_CON }
    {
        match self.confirmation() {
            Some(frame) => frame,
            None => unreachable!(),
        }
    }

    /// Whether a field of the confirmation is longer than the caller takes.
    fn confirmation_overflows(&self, amax: u32, omax: u32, umax: u32) -> bool
        requires open { is_open self.now ≡ true }
        requires waits { is_some (parts self.now).confirmation ≡ true }
        ensures { result ≡ confirmation_overflows amax omax umax (parts self.now) }
    {
        let frame = self.the_confirmation();
        is_too_long(address(frame), amax)
            || is_too_long(options(frame), omax)
            || is_too_long(data(frame), umax)
    }

    /// What is told of the confirmation.
    fn confirmation_reply(&self, amax: u32, omax: u32, umax: u32) -> Result<Reply, AllocError>
        requires open { is_open self.now ≡ true }
        requires waits { is_some (parts self.now).confirmation ≡ true }
        ensures { IfOk result (λ r. r ≡ told_confirmation amax omax umax (parts self.now)) }
    {
        let frame = self.the_confirmation();
        let addr = trimmed_copy(self.alloc, address(frame), amax)?;
        let opt = or_drop!(trimmed_copy(self.alloc, options(frame), omax), addr);
        let udata = or_drop!(trimmed_copy(self.alloc, data(frame), umax), addr, opt);
        Ok(Reply::Connected { addr, opt, udata })
    }

    /// The confirmation is taken, and data can be sent. Takes no memory.
    fn take_confirmation(&mut self)
        requires { is_open self.old ≡ true }
        ensures { self.new ≡ with_parts Connect.confirmed self.old }
    {
        self.clear_confirmation();
        self.set_state(State::T_DATAXFER);
    }

    /// Tells the confirmation, which must be there, or takes it without telling it where a field is too long.
    fn tell_confirmation(&mut self, p: &Providers, fd: Fd, amax: u32, omax: u32, umax: u32) -> Tried
        requires place { place_of p.now fd.0 ≡ self.old.place }
        requires open { is_open_as p.now fd.0 self.old ≡ true }
        requires waits { is_some (parts self.old).confirmation ≡ true }
        ensures step { TellsConfirmation p.now fd.0 amax omax umax self.old self.new result }
        ensures still { StillBlocked self.old self.new result }
        ensures room { SameRoom self.old self.new }
        ensures err { OnErr result (self.new ≡ self.old) }
    {
        if self.confirmation_overflows(amax, omax, umax) {
            self.take_confirmation();
            return Ok(done(self, p, fd, Reply::Overflow { seq: Seq(0) }));
        }
        let reply = self.confirmation_reply(amax, omax, umax)?;
        self.take_confirmation();
        Ok(done(self, p, fd, reply))
    }

    /// t_rcvconnect, and the second step of t_connect.
    pub(crate) fn rcvconnect(
        &mut self,
        p: &Providers,
        fd: Fd,
        amax: u32,
        omax: u32,
        umax: u32,
    ) -> Tried
        requires { place_of p.now fd.0 ≡ self.old.place }
        ensures step { MakesBy p.now (confirming fd.0 amax omax umax) self.old self.new result }
        ensures still { StillBlocked self.old self.new result }
        ensures room { SameRoom self.old self.new }
        ensures err { OnErr result (self.new ≡ self.old) }
        ensures sure { IsSureBy p.now (confirming fd.0 amax omax umax) self.old result }
    {
        refuse!(self, p, fd;
            TBADF if !self.is(p, fd),
            TNOTSUPPORT if !has_connections(self.prov()),
            TOUTSTATE if !self.state().is(State::T_OUTCON);
            look T_DISCONNECT if self.has_disconnect());
        once_there!(self, p, fd; self.has_confirmation() => self.tell_confirmation(p, fd, amax, omax, umax))
    }
}
