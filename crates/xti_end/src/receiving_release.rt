//! t_rcvrel and t_rcvreldata.

ghost use Rattle.std.specs.Prelude.{◌≡◌, true, None, OnErr};
ghost use Rattle.std.specs.List.{list_any};
ghost use Rattle.xti_base.specs.Kinds.{same_state};
ghost use Rattle.xti_base.specs.declared.kinds.Event.TheVariants.{T_ORDREL};
ghost use Rattle.xti_model.specs.Events.{is_here, receiving, some_wait};
ghost use Rattle.xti_model.specs.Plan.{first};
ghost use Rattle.xti_model.specs.World.{place_of};
ghost use Rattle.xti_model.specs.Calls.Release as Release;
ghost use Rattle.xti_end.specs.Held.{alone, is_open, is_open_as, parts, with_parts, SameRoom};
ghost use Rattle.xti_end.specs.Taken.{answered, receiving_release, receiving_release_data, taken, AnswersBy, IsSureBy, MakesBy, StillBlocked, TellsRelease};

use crate::answers::{done, refused};
use crate::endpoint::Endpoint;
use crate::fields::{is_too_long, trimmed_copy};
use crate::providers::has_release;
use xti_base::{Errno, Event, Fd, Seq, State};
use xti_model::{Applied, Providers, Reply, Tried};

/// Whether data of the other side are received in the state.
pub(crate) fn is_receiving(state: State) -> bool
    ensures { result ≡ list_any (same_state state) receiving }
{
    state.is(State::T_DATAXFER) || state.is(State::T_OUTREL)
}

impl Endpoint {
    /// Whether the other side's release is to be told: all data before it were received.
    pub(crate) fn shows_release(&self) -> bool
        requires { is_open self.now ≡ true }
        ensures { result ≡ is_here (parts self.now) T_ORDREL }
    {
        self.release().is_some()
            && !self.has_normal()
            && !self.has_expedited()
            && is_receiving(self.state())
    }

    /// The release is taken. Takes no memory.
    fn take_release(&mut self)
        requires { is_open self.old ≡ true }
        ensures { self.new ≡ with_parts Release.after_receive self.old }
    {
        if self.state().is(State::T_DATAXFER) {
            self.clear_release();
            self.set_state(State::T_INREL);
        } else {
            self.reset();
            self.set_state(State::T_IDLE);
        }
    }

    /// The data of the release; none where no release waits.
    fn release_data(&self) -> &[u8]
        requires { is_open self.now ≡ true }
        ensures { result.now ≡ Release.release_data (parts self.now) }
    {
        match self.release() {
            Some(frame) => frame.user(),
            None => &[],
        }
    }

    /// What refuses to take the release, with its data or without them.
    fn release_refusal(&self) -> Option<Reply>
        requires { is_open self.now ≡ true }
        ensures { answered result ≡ first (Release.receive_rows 0 (parts self.now)) }
    {
        let errno = if !has_release(self.prov()) {
            Errno::TNOTSUPPORT
        } else if !is_receiving(self.state()) {
            Errno::TOUTSTATE
        } else if self.has_disconnect() {
            let event = Event::T_DISCONNECT;
            return Some(Reply::Look { event });
        } else if !self.shows_release() {
            Errno::TNOREL
        } else {
            return None;
        };
        Some(Reply::Refused { errno })
    }

    /// t_rcvrel.
    pub(crate) fn rcvrel(&mut self, p: &Providers, fd: Fd) -> Applied
        requires { place_of p.now fd.0 ≡ self.old.place }
        ensures step { AnswersBy p.now (receiving_release fd.0) self.old self.new result }
        ensures still { taken result (alone self.new) ≡ None → self.new ≡ self.old }
        ensures room { SameRoom self.old self.new }
    {
        if !self.is(p, fd) {
            return refused(self, p, fd, Errno::TBADF);
        }
        if let Some(reply) = self.release_refusal() {
            return done(self, p, fd, reply);
        }
        self.take_release();
        done(self, p, fd, Reply::Plain)
    }

    /// Takes the release, which is to be told, with its data; without them where they are too long.
    fn tell_release(&mut self, p: &Providers, fd: Fd, umax: u32) -> Tried
        requires place { place_of p.now fd.0 ≡ self.old.place }
        requires open { is_open_as p.now fd.0 self.old ≡ true }
        ensures step { TellsRelease p.now fd.0 umax self.old self.new result }
        ensures still { StillBlocked self.old self.new result }
        ensures room { SameRoom self.old self.new }
        ensures err { OnErr result (self.new ≡ self.old) }
    {
        let data = self.release_data();
        let reply = if is_too_long(data, umax) {
            Reply::Overflow { seq: Seq(0) }
        } else {
            let udata = trimmed_copy(self.alloc, data, umax)?;
            Reply::RelData { udata }
        };
        self.take_release();
        Ok(done(self, p, fd, reply))
    }

    /// t_rcvreldata.
    pub(crate) fn rcvreldata(&mut self, p: &Providers, fd: Fd, umax: u32) -> Tried
        requires { place_of p.now fd.0 ≡ self.old.place }
        ensures step { MakesBy p.now (receiving_release_data fd.0 umax) self.old self.new result }
        ensures still { StillBlocked self.old self.new result }
        ensures room { SameRoom self.old self.new }
        ensures err { OnErr result (self.new ≡ self.old) }
        ensures sure { IsSureBy p.now (receiving_release_data fd.0 umax) self.old result }
    {
        if !self.is(p, fd) {
            return Ok(refused(self, p, fd, Errno::TBADF));
        }
        if let Some(reply) = self.release_refusal() {
            return Ok(done(self, p, fd, reply));
        }
        self.tell_release(p, fd, umax)
    }
}
