//! t_optmgmt.

ghost use Rattle.std.specs.Prelude.{◌≡◌, ◌&&◌, [], true, IfErr, IfOk, OnErr, OnOk};
ghost use Rattle.xti_base.specs.Negotiation.{is_action};
ghost use Rattle.xti_opt.specs.Requests.{is_request};
ghost use Rattle.xti_model.specs.Provider.{profile};
ghost use Rattle.xti_model.specs.World.{place_of};
ghost use Rattle.xti_model.specs.Calls.Show as Show;
ghost use Rattle.xti_end.specs.Held.{is_open, is_open_as, parts, with_parts, SameRoom};
ghost use Rattle.xti_end.specs.Negotiating.{negotiating, IsAnswerSize, IsNegotiated, IsRefusedWith, Negotiates};
ghost use Rattle.xti_end.specs.Taken.{IsSureBy, MakesBy, StillBlocked};

use crate::answers::{done, refused};
use crate::endpoint::Endpoint;
use crate::fields::{is_too_long, trimmed};
use crate::providers::profile;
use xti_base::limits::MOST_OPTIONS;
use xti_base::{Errno, Fd, Room, Seq};
use xti_model::{Applied, Providers, Reply, Tried};
use xti_opt::{OptRefusal, Settings, answer_size, negotiate_bytes};

/// A request to negotiate: what is to be done with the options, and the options.
#[derive(Clone, Copy)]
pub(crate) struct Request<'a> {
    pub(crate) action: u32,
    pub(crate) options: &'a [u8],
}

/// How many bytes answer this request, or the error that it is refused with.
fn size_of_answer(action: u32, options: &[u8]) -> Result<usize, Errno>
    ensures size { IfOk result (IsAnswerSize action options.now) }
    ensures request { OnOk result ((is_action action && is_request options.now) ≡ true) }
    ensures negotiated { OnOk result (IsNegotiated action options.now) }
    ensures refused { IfErr result (IsRefusedWith action options.now) }
{
    match answer_size(action, options) {
        Ok(_) if options.len() > MOST_OPTIONS => Err(Errno::TBADOPT),
        Ok(size) => Ok(size),
        Err(OptRefusal::BadFlag) => Err(Errno::TBADFLAG),
        Err(OptRefusal::BadOption) => Err(Errno::TBADOPT),
    }
}

impl Endpoint {
    /// What the open endpoint negotiates.
    fn settings(&self, p: &Providers) -> Settings
        requires { is_open self.now ≡ true }
        ensures { result ≡ Show.settings (profile p.now (parts self.now).prov) (parts self.now) }
    {
        let profile = profile(p, self.prov());
        Settings {
            sndbuf: self.sndbuf(),
            rcvbuf: self.rcvbuf(),
            start_sndbuf: profile.sndbuf,
            start_rcvbuf: profile.rcvbuf,
        }
    }

    /// Sets the sizes that were negotiated.
    fn set_sizes(&mut self, settings: Settings)
        requires { is_open self.old ≡ true }
        ensures { self.new ≡ with_parts (Show.with_settings settings) self.old }
    {
        self.set_sndbuf(settings.sndbuf);
        self.set_rcvbuf(settings.rcvbuf);
    }

    /// Negotiates the options of a request that is not refused, and tells the answer, or loses it where it is too long. The empty
    /// room takes the answer.
    fn negotiate(
        &mut self,
        p: &Providers,
        fd: Fd,
        asked: Request<'_>,
        omax: u32,
        mut room: Room,
    ) -> Applied
        requires place { place_of p.now fd.0 ≡ self.old.place }
        requires open { is_open_as p.now fd.0 self.old ≡ true }
        requires request { (is_action asked.action && is_request asked.options.now) ≡ true }
        requires empty { room.bytes ≡ [] }
        requires room { IsAnswerSize asked.action asked.options.now room.spare }
        ensures step { Negotiates p.now fd.0 asked.entry omax self.old self.new result }
        ensures room { SameRoom self.old self.new }
    {
        let mut settings = self.settings(p);
        let Ok(result) = negotiate_bytes(&mut settings, asked.action, asked.options, &mut room)
        else {
            unreachable!();
        };
        self.set_sizes(settings);
        let answer = room.finish();
        if is_too_long(answer.as_slice(), omax) {
            return done(self, p, fd, Reply::Overflow { seq: Seq(0) });
        }
        let opt = trimmed(self.alloc, answer, omax);
        done(self, p, fd, Reply::Options { result, opt })
    }

    /// t_optmgmt.
    pub(crate) fn optmgmt(&mut self, p: &Providers, fd: Fd, asked: Request<'_>, omax: u32) -> Tried
        requires { place_of p.now fd.0 ≡ self.old.place }
        ensures step { MakesBy p.now (negotiating fd.0 asked.entry omax) self.old self.new result }
        ensures still { StillBlocked self.old self.new result }
        ensures room { SameRoom self.old self.new }
        ensures err { OnErr result (self.new ≡ self.old) }
        ensures sure { IsSureBy p.now (negotiating fd.0 asked.entry omax) self.old result }
    {
        if !self.is(p, fd) {
            return Ok(refused(self, p, fd, Errno::TBADF));
        }
        match size_of_answer(asked.action, asked.options) {
            Ok(size) => {
                let room = Room::new(self.alloc, size)?;
                Ok(self.negotiate(p, fd, asked, omax, room))
            }
            Err(errno) => Ok(refused(self, p, fd, errno)),
        }
    }
}
