//! t_rcvuderr.

ghost use Rattle.std.specs.Prelude.{◌≡◌, [], true, false, IfOk, IsOk, OnErr, None};
ghost use Rattle.std.specs.List.{list_any};
ghost use Rattle.tpi_grammar.specs.declared.kind.Kind.TheVariants.{T_UDERROR_IND};
ghost use Rattle.tpi_prim.specs.Fields.{kind_in};
ghost use Rattle.xti_model.specs.Events.{some_wait};
ghost use Rattle.xti_model.specs.Plan.{is_too_long};
ghost use Rattle.xti_model.specs.World.{place_of};
ghost use Rattle.xti_model.specs.Calls.Datagrams as Datagrams;
ghost use Rattle.xti_end.specs.Frames.{error_in};
ghost use Rattle.xti_end.specs.Held.{is_open, is_open_as, parts, with_parts, SameRoom};
ghost use Rattle.xti_end.specs.Taken.{error_fields, receiving_error, told_error, IsSureBy, MakesBy, StillBlocked, TellsError};

use crate::answers::done;
use crate::endpoint::Endpoint;
use crate::fields::{is_too_long, trimmed_copy};
use crate::providers::has_datagrams;
use std::alloc::AllocError;
use tpi_prim::Frame;
use tpi_prim::primitive::Part;
use xti_base::{Fd, Seq, State};
use xti_model::{Providers, Reply, Tried};

/// Where the datagram of a T_UDERROR_IND was to go.
fn destination(frame: &Frame) -> &[u8]
    requires { kind_in frame.now ≡ T_UDERROR_IND }
    ensures { result.now ≡ (error_in frame.now).destination }
{
    frame.part(Part::Dest)
}

/// The options of the datagram of a T_UDERROR_IND.
fn options(frame: &Frame) -> &[u8]
    requires { kind_in frame.now ≡ T_UDERROR_IND }
    ensures { result.now ≡ (error_in frame.now).options }
{
    frame.part(Part::Opt)
}

/// The code of a T_UDERROR_IND.
fn code(frame: &Frame) -> u32
    requires { kind_in frame.now ≡ T_UDERROR_IND }
    ensures { result ≡ (error_in frame.now).code }
{
    frame.reason()
}

impl Endpoint {
    /// The first datagram error, which must be there.
    fn first_error(&self) -> &Frame
        requires { some_wait (parts self.now).datagram_errors ≡ true }
        ensures error { error_in result.now ≡ Datagrams.first_error (parts self.now) }
        ensures kind { kind_in result.now ≡ T_UDERROR_IND }
    {
        match self.datagram_error(0) {
            Some(frame) => frame,
            None => unreachable!(),
        }
    }

    /// Whether a field of the first datagram error is longer than the caller takes.
    fn error_overflows(&self, amax: u32, omax: u32) -> bool
        requires { some_wait (parts self.now).datagram_errors ≡ true }
        ensures { result ≡ list_any is_too_long (error_fields amax omax (parts self.now)) }
    {
        let frame = self.first_error();
        is_too_long(destination(frame), amax) || is_too_long(options(frame), omax)
    }

    /// What is told of the first datagram error.
    fn error_reply(&self, amax: u32, omax: u32) -> Result<Reply, AllocError>
        requires { some_wait (parts self.now).datagram_errors ≡ true }
        ensures { IfOk result (λ r. r ≡ told_error amax omax (parts self.now)) }
    {
        let frame = self.first_error();
        let addr = trimmed_copy(self.alloc, destination(frame), amax)?;
        let opt = or_drop!(trimmed_copy(self.alloc, options(frame), omax), addr);
        Ok(Reply::UDErr {
            addr,
            opt,
            code: code(frame),
        })
    }

    /// The first datagram error is gone. Takes no memory.
    fn drop_error(&mut self)
        requires { some_wait (parts self.old).datagram_errors ≡ true }
        ensures { self.new ≡ with_parts Datagrams.without_error self.old }
    {
        let _error = self.take_datagram_error(0);
    }

    /// Tells the first datagram error, which must be there, or loses it where a field is too long.
    fn tell_or_lose(&mut self, p: &Providers, fd: Fd, amax: u32, omax: u32) -> Tried
        requires place { place_of p.now fd.0 ≡ self.old.place }
        requires open { is_open_as p.now fd.0 self.old ≡ true }
        requires waits { some_wait (parts self.old).datagram_errors ≡ true }
        ensures step { TellsError p.now fd.0 amax omax self.old self.new result }
        ensures still { StillBlocked self.old self.new result }
        ensures room { SameRoom self.old self.new }
        ensures err { OnErr result (self.new ≡ self.old) }
    {
        if self.error_overflows(amax, omax) {
            self.drop_error();
            return Ok(done(self, p, fd, Reply::Overflow { seq: Seq(0) }));
        }
        let reply = self.error_reply(amax, omax)?;
        self.drop_error();
        Ok(done(self, p, fd, reply))
    }

    /// t_rcvuderr.
    pub(crate) fn rcvuderr(&mut self, p: &Providers, fd: Fd, amax: u32, omax: u32) -> Tried
        requires { place_of p.now fd.0 ≡ self.old.place }
        ensures step { MakesBy p.now (receiving_error fd.0 amax omax) self.old self.new result }
        ensures still { StillBlocked self.old self.new result }
        ensures room { SameRoom self.old self.new }
        ensures err { OnErr result (self.new ≡ self.old) }
        ensures sure { IsSureBy p.now (receiving_error fd.0 amax omax) self.old result }
    {
        refuse!(self, p, fd;
            TBADF if !self.is(p, fd),
            TNOTSUPPORT if !has_datagrams(self.prov()),
            TOUTSTATE if !self.state().is(State::T_IDLE),
            TNOUDERR if !self.has_datagram_error());
        self.tell_or_lose(p, fd, amax, omax)
    }
}
