//! t_rcvdis.

ghost use Rattle.std.specs.Prelude.{◌≡◌, true, IfOk, OnErr};
ghost use Rattle.std.specs.List.{list_any};
ghost use Rattle.tpi_grammar.specs.declared.kind.Kind.TheVariants.{T_DISCON_IND};
ghost use Rattle.tpi_prim.specs.Fields.{kind_in};
ghost use Rattle.xti_base.specs.Kinds.{same_state};
ghost use Rattle.xti_model.specs.Events.{some_wait, connected_or_asking};
ghost use Rattle.xti_model.specs.Plan.{field, is_too_long};
ghost use Rattle.xti_model.specs.World.{place_of};
ghost use Rattle.xti_model.specs.Calls.Disconnect as Disconnect;
ghost use Rattle.xti_end.specs.Frames.{disconnect_in};
ghost use Rattle.xti_end.specs.Held.{is_open, is_open_as, parts, with_parts, SameRoom};
ghost use Rattle.xti_end.specs.Taken.{receiving_disconnect, told_disconnect, IsSureBy, MakesBy, StillBlocked, TellsDisconnect};

use crate::answers::done;
use crate::endpoint::Endpoint;
use crate::fields::{is_too_long, trimmed_copy};
use crate::providers::has_connections;
use std::alloc::AllocError;
use tpi_prim::Frame;
use xti_base::{Fd, Seq, State};
use xti_model::{Providers, Reply, Tried};

/// Whether there is a connection, or a request for one.
pub fn is_connected_or_asking(state: State) -> bool
    ensures { result ≡ list_any (same_state state) connected_or_asking }
{
    match state {
        State::T_OUTCON | State::T_INCON | State::T_DATAXFER | State::T_OUTREL | State::T_INREL =>
            true,
        State::T_UNINIT | State::T_UNBND | State::T_IDLE => false,
    }
}

/// The reason of a T_DISCON_IND.
fn reason(frame: &Frame) -> u32
    requires { kind_in frame.now ≡ T_DISCON_IND }
    ensures { result ≡ (disconnect_in frame.now).reason }
{
    frame.reason()
}

/// The sequence number of a T_DISCON_IND.
fn number(frame: &Frame) -> Seq
    requires { kind_in frame.now ≡ T_DISCON_IND }
    ensures { result.0 ≡ (disconnect_in frame.now).number }
{
    Seq(frame.seq())
}

/// The data of a T_DISCON_IND.
fn data(frame: &Frame) -> &[u8]
    requires { kind_in frame.now ≡ T_DISCON_IND }
    ensures { result.now ≡ (disconnect_in frame.now).udata }
{
    frame.user()
}

impl Endpoint {
    /// The oldest disconnect, which must be there.
    fn oldest_disconnect(&self) -> &Frame
        requires open { is_open self.now ≡ true }
        requires waits { some_wait (parts self.now).disconnects ≡ true }
        ensures disconnect { disconnect_in result.now ≡ Disconnect.oldest (parts self.now) }
        ensures kind { kind_in result.now ≡ T_DISCON_IND }
    {
        match self.disconnect(0) {
            Some(frame) => frame,
            None => unreachable!(),
        }
    }

    /// What is told of the oldest disconnect.
    fn disconnect_reply(&self, umax: u32) -> Result<Reply, AllocError>
        requires open { is_open self.now ≡ true }
        requires waits { some_wait (parts self.now).disconnects ≡ true }
        ensures { IfOk result (λ r. r ≡ told_disconnect umax (parts self.now)) }
    {
        let frame = self.oldest_disconnect();
        Ok(Reply::Discon {
            reason: reason(frame),
            seq: number(frame),
            udata: trimmed_copy(self.alloc, data(frame), umax)?,
        })
    }

    /// The oldest disconnect is taken: a listener loses its request, and others what is left of the connection. Takes no memory.
    fn drop_disconnect(&mut self)
        requires open { is_open self.old ≡ true }
        requires waits { some_wait (parts self.old).disconnects ≡ true }
        ensures { self.new ≡ with_parts Disconnect.received self.old }
    {
        if self.state().is(State::T_INCON) {
            let seq = number(self.oldest_disconnect());
            self.take_out(seq);
            let _disconnect = self.take_disconnect(0);
        } else {
            self.reset();
            self.set_state(State::T_IDLE);
        }
    }

    /// Tells the oldest disconnect, which must be there, or takes it without telling its data where they are too long.
    fn tell_disconnect(&mut self, p: &Providers, fd: Fd, umax: u32) -> Tried
        requires place { place_of p.now fd.0 ≡ self.old.place }
        requires open { is_open_as p.now fd.0 self.old ≡ true }
        requires waits { some_wait (parts self.old).disconnects ≡ true }
        ensures step { TellsDisconnect p.now fd.0 umax self.old self.new result }
        ensures still { StillBlocked self.old self.new result }
        ensures room { SameRoom self.old self.new }
        ensures err { OnErr result (self.new ≡ self.old) }
    {
        if is_too_long(data(self.oldest_disconnect()), umax) {
            self.drop_disconnect();
            return Ok(done(self, p, fd, Reply::Overflow { seq: Seq(0) }));
        }
        let reply = self.disconnect_reply(umax)?;
        self.drop_disconnect();
        Ok(done(self, p, fd, reply))
    }

    /// t_rcvdis.
    pub(crate) fn rcvdis(&mut self, p: &Providers, fd: Fd, umax: u32) -> Tried
        requires { place_of p.now fd.0 ≡ self.old.place }
        ensures step { MakesBy p.now (receiving_disconnect fd.0 umax) self.old self.new result }
        ensures still { StillBlocked self.old self.new result }
        ensures room { SameRoom self.old self.new }
        ensures err { OnErr result (self.new ≡ self.old) }
        ensures sure { IsSureBy p.now (receiving_disconnect fd.0 umax) self.old result }
    {
        refuse!(self, p, fd;
            TBADF if !self.is(p, fd),
            TNOTSUPPORT if !has_connections(self.prov()),
            TOUTSTATE if !is_connected_or_asking(self.state()),
            TNODIS if !self.has_disconnect());
        self.tell_disconnect(p, fd, umax)
    }
}
