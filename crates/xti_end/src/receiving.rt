//! t_rcvudata and t_rcvvudata.

ghost use Rattle.std.specs.Prelude.{◌≡◌, nat_lt, ℕ, [], true, false, length, sum, IfOk, IsOk, OnOk, OnErr, None};
ghost use Rattle.tpi_grammar.specs.Frame.{AreBytes};
ghost use Rattle.xti_model.specs.Arguments.{is_too_many};
ghost use Rattle.xti_model.specs.Events.{some_wait};
ghost use Rattle.xti_model.specs.World.{place_of};
ghost use Rattle.xti_model.specs.Calls.Datagrams as Datagrams;
ghost use Rattle.xti_end.specs.Held.{is_open, is_open_as, parts, with_parts, SameRoom};
ghost use Rattle.xti_end.specs.Taken.{first_bytes, first_has_rest, receiving, filling, IsSureBy, MakesBy, Receives, StillBlocked};

use crate::answers::done;
use crate::endpoint::Endpoint;
use crate::fields::{is_too_long, trimmed_copy};
use crate::providers::has_datagrams;
use std::alloc::AllocError;
use tpi_prim::primitive::Part;
use xti_base::limits::MOST_PARTS;
use xti_base::{Fd, Octets, Seq, State};
use xti_model::{Providers, Reply, Tried};

/// Whether there are more bytes than `max`.
fn is_more(bytes: &[u8], max: usize) -> bool
    ensures more { result ≡ nat_lt max (length bytes.now) }
    ensures bytes { AreBytes bytes.now }
{
    bytes.len() > max
}

/// How many sizes bytes are received into, and how many bytes these are.
#[derive(Clone, Copy)]
pub(crate) struct Sizes {
    pub(crate) count: usize,
    pub(crate) total: usize,
}

impl Sizes {
    /// One size.
    pub(crate) fn one(size: u32) -> Sizes
        ensures { result ≡ record { count = 1; total = size } }
    {
        Sizes {
            count: 1,
            total: size as usize,
        }
    }

    /// All these sizes. Where there are too many, which is refused whatever their sum is, the total is left open.
    pub(crate) fn all(sizes: &[u32]) -> Sizes
        ensures count { result.count ≡ length sizes.now }
        ensures total { is_too_many (length sizes.now) ≡ false → result.total ≡ sum sizes.now }
    {
        Sizes {
            count: sizes.len(),
            total: total(sizes),
        }
    }
}

/// Bytes of a datagram, and whether more of it are left.
#[derive(Drop)]
struct Received {
    bytes: Octets,
    more: bool,
}

impl Endpoint {
    /// The address of the first datagram; none where that was begun.
    fn source(&self) -> &[u8]
        requires { is_open self.now ≡ true }
        ensures { result.now ≡ (Datagrams.told (parts self.now)).source }
    {
        if self.begun() {
            return &[];
        }
        match self.waiting.datagrams.front() {
            Some(frame) => frame.part(Part::Src),
            None => &[],
        }
    }

    /// The options of the first datagram; none where that was begun.
    fn options(&self) -> &[u8]
        requires { is_open self.now ≡ true }
        ensures { result.now ≡ (Datagrams.told (parts self.now)).options }
    {
        if self.begun() {
            return &[];
        }
        match self.waiting.datagrams.front() {
            Some(frame) => frame.part(Part::Opt),
            None => &[],
        }
    }

    /// What is left of the first datagram's bytes.
    fn rest(&self) -> &[u8]
        requires { is_open self.now ≡ true }
        ensures { result.now ≡ (Datagrams.first_of (parts self.now)).bytes }
    {
        match self.waiting.datagrams.front_rest() {
            Some(rest) => rest,
            None => &[],
        }
    }

    /// The first datagram is gone. Takes no memory.
    fn drop_datagram(&mut self)
        requires { is_open self.old ≡ true }
        ensures { self.new ≡ with_parts Datagrams.dropped self.old }
    {
        self.waiting.datagrams.drop_front();
        if let Some(parts) = &mut self.body {
            parts.begun = false;
        }
    }

    /// The next `max` bytes of the first datagram, which is gone where none are left; where memory runs out all is as before.
    fn take_bytes(&mut self, max: usize) -> Result<Received, AllocError>
        requires open { is_open self.old ≡ true }
        requires waits { some_wait (parts self.old).datagrams ≡ true }
        ensures bytes { IfOk result (λ r. r.bytes ≡ first_bytes max (parts self.old)) }
        ensures more { IfOk result (λ r. r.more ≡ first_has_rest max (parts self.old)) }
        ensures left { OnOk result (self.new ≡ with_parts (Datagrams.received max) self.old) }
        ensures err { OnErr result (self.new ≡ self.old) }
    {
        let begun = is_more(self.rest(), max);
        let piece = self.waiting.datagrams.take(max, &mut self.room)?;
        self.set_begun(begun);
        Ok(Received {
            bytes: piece.bytes,
            more: begun,
        })
    }

    /// Receives of the first datagram, which must be there, or loses it where a field is too long.
    fn receive_or_lose(&mut self, p: &Providers, fd: Fd, max: usize, amax: u32, omax: u32) -> Tried
        requires place { place_of p.now fd.0 ≡ self.old.place }
        requires open { is_open_as p.now fd.0 self.old ≡ true }
        requires waits { some_wait (parts self.old).datagrams ≡ true }
        ensures step { Receives p.now fd.0 max amax omax self.old self.new result }
        ensures still { StillBlocked self.old self.new result }
        ensures room { SameRoom self.old self.new }
        ensures err { OnErr result (self.new ≡ self.old) }
    {
        let source = self.source();
        let options = self.options();
        if is_too_long(source, amax) || is_too_long(options, omax) {
            self.drop_datagram();
            return Ok(done(self, p, fd, Reply::Overflow { seq: Seq(0) }));
        }
        let addr = trimmed_copy(self.alloc, source, amax)?;
        let opt = or_drop!(trimmed_copy(self.alloc, options, omax), addr);
        let Received { bytes, more } = or_drop!(self.take_bytes(max), addr, opt);
        let flags = if more { 1 } else { 0 };
        let reply = Reply::UData {
            addr,
            opt,
            bytes,
            flags,
        };
        Ok(done(self, p, fd, reply))
    }

    /// t_rcvudata, or t_rcvvudata into these sizes.
    pub(crate) fn rcvudata(
        &mut self,
        p: &Providers,
        fd: Fd,
        sizes: Sizes,
        amax: u32,
        omax: u32,
    ) -> Tried
        requires { place_of p.now fd.0 ≡ self.old.place }
        ensures step { MakesBy p.now (receiving fd.0 sizes amax omax) self.old self.new result }
        ensures still { StillBlocked self.old self.new result }
        ensures room { SameRoom self.old self.new }
        ensures err { OnErr result (self.new ≡ self.old) }
        ensures sure { IsSureBy p.now (receiving fd.0 sizes amax omax) self.old result }
    {
        refuse!(self, p, fd;
            TBADF if !self.is(p, fd),
            TNOTSUPPORT if !has_datagrams(self.prov()),
            TOUTSTATE if !self.state().is(State::T_IDLE),
            TBADDATA if sizes.count > MOST_PARTS;
            look T_UDERR if self.has_datagram_error());
        once_there!(self, p, fd; self.has_datagram() => self.receive_or_lose(p, fd, sizes.total, amax, omax))
    }

    /// t_rcvvudata.
    pub(crate) fn rcvvudata(
        &mut self,
        p: &Providers,
        fd: Fd,
        sizes: &[u32],
        amax: u32,
        omax: u32,
    ) -> Tried
        requires { place_of p.now fd.0 ≡ self.old.place }
        ensures step { MakesBy p.now (filling fd.0 sizes.now amax omax) self.old self.new result }
        ensures still { StillBlocked self.old self.new result }
        ensures room { SameRoom self.old self.new }
        ensures err { OnErr result (self.new ≡ self.old) }
        ensures sure { IsSureBy p.now (filling fd.0 sizes.now amax omax) self.old result }
    {
        self.rcvudata(p, fd, Sizes::all(sizes), amax, omax)
    }
}

/// The sum of the sizes, where there are not too many; those are refused whatever their sum is.
fn total(sizes: &[u32]) -> usize
    ensures { is_too_many (length sizes.now) ≡ false → result ≡ sum sizes.now }
{
    if sizes.len() > MOST_PARTS {
        return 0;
    }
    let mut total = 0;
    for size in sizes {
        total += *size as usize;
    }
    total
}
