//! The mode, and the calls that show an endpoint.

ghost use Rattle.std.specs.Prelude.{◌≡◌, None, true};
ghost use Rattle.xti_model.specs.Endpoint.{address_of};
ghost use Rattle.xti_model.specs.World.{place_of};
ghost use Rattle.xti_model.specs.Calls.Show as Show;
ghost use Rattle.xti_end.specs.Held.{alone, is_open, parts, SameRoom};
ghost use Rattle.xti_end.specs.Taken.{setting_mode, showing_addresses, showing_limits, showing_state, taken, AnswersBy, IsSureBy, MakesBy};

use crate::answers::{done, refused};
use crate::endpoint::Endpoint;
use crate::fields::{is_too_long, trimmed_copy};
use crate::providers::info;
use xti_base::{Errno, Fd, Seq, State, let_go};
use xti_model::{Applied, Providers, Reply, Tried};

impl Endpoint {
    /// t_getstate and t_sync.
    pub(crate) fn getstate(&self, p: &Providers, fd: Fd) -> Applied
        requires { place_of p.now fd.0 ≡ self.now.place }
        ensures { AnswersBy p.now (showing_state fd.0) self.now self.now result }
    {
        if !self.is(p, fd) {
            return refused(self, p, fd, Errno::TBADF);
        }
        let state = self.state();
        done(self, p, fd, Reply::Stands { state })
    }

    /// Sets O_NONBLOCK, or clears it.
    pub(crate) fn set_mode(&mut self, p: &Providers, fd: Fd, nonblock: bool) -> Applied
        requires { place_of p.now fd.0 ≡ self.old.place }
        ensures step { AnswersBy p.now (setting_mode fd.0 nonblock) self.old self.new result }
        ensures still { taken result (alone self.new) ≡ None → self.new ≡ self.old }
        ensures room { SameRoom self.old self.new }
    {
        if !self.is(p, fd) {
            return refused(self, p, fd, Errno::TBADF);
        }
        self.set_nonblock(nonblock);
        done(self, p, fd, Reply::Plain)
    }

    /// t_getinfo.
    pub(crate) fn getinfo(&self, p: &Providers, fd: Fd) -> Applied
        requires { place_of p.now fd.0 ≡ self.now.place }
        ensures { AnswersBy p.now (showing_limits fd.0) self.now self.now result }
    {
        if !self.is(p, fd) {
            return refused(self, p, fd, Errno::TBADF);
        }
        let info = info(p, self.prov());
        done(self, p, fd, Reply::Limits { info })
    }

    /// The address of the open endpoint; no bytes where it is not bound.
    fn shown_address(&self) -> &[u8]
        requires { is_open self.now ≡ true }
        ensures { result.now ≡ address_of (parts self.now) }
    {
        match self.address() {
            Some(address) => address.as_slice(),
            None => &[],
        }
    }

    /// The address of its peer, in the states that may have one.
    fn shown_peer(&self) -> &[u8]
        requires { is_open self.now ≡ true }
        ensures { result.now ≡ Show.shown_peer (parts self.now) }
    {
        match self.state() {
            State::T_OUTCON | State::T_DATAXFER | State::T_OUTREL | State::T_INREL => {
                match self.peer_address() {
                    Some(address) => address.as_slice(),
                    None => &[],
                }
            }
            _ => &[],
        }
    }

    /// t_getprotaddr.
    pub(crate) fn getprotaddr(&self, p: &Providers, fd: Fd, amax: u32, pmax: u32) -> Tried
        requires { place_of p.now fd.0 ≡ self.now.place }
        ensures step { MakesBy p.now (showing_addresses fd.0 amax pmax) self.now self.now result }
        ensures sure { IsSureBy p.now (showing_addresses fd.0 amax pmax) self.now result }
    {
        if !self.is(p, fd) {
            return Ok(refused(self, p, fd, Errno::TBADF));
        }
        let local = self.shown_address();
        let peer = self.shown_peer();
        if is_too_long(local, amax) || is_too_long(peer, pmax) {
            return Ok(done(self, p, fd, Reply::Overflow { seq: Seq(0) }));
        }
        let local = trimmed_copy(self.alloc, local, amax)?;
        let peer = match trimmed_copy(self.alloc, peer, pmax) {
            Ok(made) => made,
            Err(fail) => {
                let_go(local);
                return Err(fail);
            }
        };
        Ok(done(self, p, fd, Reply::Addresses { local, peer }))
    }
}
