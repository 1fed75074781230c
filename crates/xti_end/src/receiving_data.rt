//! t_rcv and t_rcvv.

ghost use Rattle.std.specs.Prelude.{◌≡◌, true, IfOk, OnOk, OnErr};
ghost use Rattle.xti_model.specs.Events.{looked, looks_data};
ghost use Rattle.xti_model.specs.Symbols as waiting;
ghost use Rattle.xti_model.specs.World.{place_of};
ghost use Rattle.xti_model.specs.Calls.Receive as Receive;
ghost use Rattle.xti_end.specs.Held.{is_open, parts, with_parts, without_normal, without_expedited, SameRoom};
ghost use Rattle.xti_end.specs.Taken.{data_reply, receiving_data, filling_data, IsSureBy, MakesBy, StillBlocked};

use crate::answers::done;
use crate::endpoint::Endpoint;
use crate::providers::{has_connections, is_stream};
use crate::receiving::Sizes;
use crate::receiving_release::is_receiving;
use std::alloc::AllocError;
use xti_base::limits::MOST_PARTS;
use xti_base::{Event, Fd};
use xti_model::{Providers, Reply, Tried};
use xti_queue::Piece;

/// T_EXPEDITED, 2, and T_MORE, 1.
fn flags(expedited: bool, more: bool) -> u32
    ensures { result ≡ Receive.flags expedited more }
{
    2 * u32::from(expedited) + u32::from(more)
}

impl Endpoint {
    /// The event that is told instead of data.
    pub fn event_before_data(&self) -> Option<Event>
        requires { is_open self.now ≡ true }
        ensures { result ≡ looked looks_data (parts self.now) }
    {
        if self.has_disconnect() {
            Some(Event::T_DISCONNECT)
        } else if self.shows_release() {
            Some(Event::T_ORDREL)
        } else {
            None
        }
    }

    /// Whether nothing can be received now; normal data wait until an expedited message has ended.
    fn has_nothing(&self) -> bool
        requires { is_open self.now ≡ true }
        ensures { result ≡ Receive.has_nothing (parts self.now) }
    {
        !self.has_expedited() && (self.mid_expedited() || !self.has_normal())
    }

    /// The next `max` bytes of the normal message at the start; where memory runs out all is as before.
    fn take_normal(&mut self, max: usize) -> Result<Piece, AllocError>
        requires { is_open self.old ≡ true }
        ensures bytes { IfOk result (λ r. r.bytes ≡ waiting.front max (parts self.old).normal) }
        ensures ended { IfOk result (λ r. r.ended ≡ waiting.ended max (parts self.old).normal) }
        ensures left { OnOk result (self.new ≡ with_parts (without_normal max) self.old) }
        ensures err { OnErr result (self.new ≡ self.old) }
    {
        self.waiting.normal.take(max, &mut self.room)
    }

    /// The next `max` bytes of the expedited message at the start; where memory runs out all is as before.
    fn take_expedited(&mut self, max: usize) -> Result<Piece, AllocError>
        requires { is_open self.old ≡ true }
        ensures bytes { IfOk result (λ r. r.bytes ≡ waiting.front max (parts self.old).expedited) }
        ensures ended { IfOk result (λ r. r.ended ≡ waiting.ended max (parts self.old).expedited) }
        ensures left { OnOk result (self.new ≡ with_parts (without_expedited max) self.old) }
        ensures err { OnErr result (self.new ≡ self.old) }
    {
        self.waiting.expedited.take(max, &mut self.room)
    }

    /// Receives at most `max` bytes, expedited ones where there are any; where memory runs out all is as before.
    fn receive_data(&mut self, p: &Providers, max: usize) -> Result<Reply, AllocError>
        requires { is_open self.old ≡ true }
        ensures reply { IfOk result (λ r. r ≡ data_reply p.now max self.old) }
        ensures left { OnOk result (self.new ≡ with_parts (Receive.received p.now max) self.old) }
        ensures err { OnErr result (self.new ≡ self.old) }
    {
        if self.has_expedited() {
            let Piece { bytes, ended } = self.take_expedited(max)?;
            self.set_mid_expedited(!ended);
            let flags = flags(true, !ended);
            return Ok(Reply::Got { bytes, flags });
        }
        let Piece { bytes, ended } = self.take_normal(max)?;
        let more = !ended && !is_stream(p, self.prov());
        let flags = flags(false, more);
        Ok(Reply::Got { bytes, flags })
    }

    /// t_rcv, or t_rcvv into these sizes.
    pub(crate) fn rcv(&mut self, p: &Providers, fd: Fd, sizes: Sizes) -> Tried
        requires { place_of p.now fd.0 ≡ self.old.place }
        ensures step { MakesBy p.now (receiving_data fd.0 sizes) self.old self.new result }
        ensures still { StillBlocked self.old self.new result }
        ensures room { SameRoom self.old self.new }
        ensures err { OnErr result (self.new ≡ self.old) }
        ensures sure { IsSureBy p.now (receiving_data fd.0 sizes) self.old result }
    {
        refuse!(self, p, fd;
            TBADF if !self.is(p, fd),
            TNOTSUPPORT if !has_connections(self.prov()),
            TOUTSTATE if !is_receiving(self.state()),
            TBADDATA if sizes.count > MOST_PARTS);
        if let Some(event) = self.event_before_data() {
            return Ok(done(self, p, fd, Reply::Look { event }));
        }
        once_there!(self, p, fd; !self.has_nothing() => {
            let reply = self.receive_data(p, sizes.total)?;
            Ok(done(self, p, fd, reply))
        })
    }

    /// t_rcvv.
    pub(crate) fn rcvv(&mut self, p: &Providers, fd: Fd, sizes: &[u32]) -> Tried
        requires { place_of p.now fd.0 ≡ self.old.place }
        ensures step { MakesBy p.now (filling_data fd.0 sizes.now) self.old self.new result }
        ensures still { StillBlocked self.old self.new result }
        ensures room { SameRoom self.old self.new }
        ensures err { OnErr result (self.new ≡ self.old) }
        ensures sure { IsSureBy p.now (filling_data fd.0 sizes.now) self.old result }
    {
        self.rcv(p, fd, Sizes::all(sizes))
    }
}
