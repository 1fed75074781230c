//! A listener while it accepts.

ghost use Rattle.std.specs.Prelude.{◌≡◌, ◌≤◌, ◌+◌, ◌*◌, None, Some, true};
ghost use Rattle.xti_sock.specs.declared.limits.TheConstants.{MOST_TURNS};
ghost use Rattle.xti_sock.specs.Accepting.{accept_at, accept_turns, forget, serve, serve_one, take};
ghost use Rattle.xti_sock.specs.Accepting.{turn};
ghost use Rattle.xti_sock.specs.Scripts.{Runs, made};
ghost use Rattle.xti_sock.specs.Turns.{Leads, Uses, left_by, sock_of};

use crate::caller::Caller;
use crate::fail::SockFail;
use crate::heard::{Heard, ask, fail_of};
use crate::kept::Kept;
use crate::limits::MOST_TURNS;
use crate::phase::Phase;
use crate::sock::Sock;
use std::alloc::Global;
use std::sync::Wait;
use xti_base::{Fd, Octets, Prov, Seq};
use xti_model::Call;

/// A listener while it accepts: its descriptor, the numbers of requests that it keeps, and the spare descriptor.
#[derive(Drop)]
pub struct Listener {
    pub(crate) fd: Fd,
    pub(crate) kept: Kept,
    pub(crate) spare: Option<Fd>,
}

impl Listener {
    // Takes a disconnect, and forgets the request that it takes back.
    fn forget<C: Caller, R: Wait + Sync>(
        &mut self,
        io: &mut C,
        rt: &R,
        alloc: Global,
    ) -> Option<Result<Sock, SockFail>>
        requires free { (C.sight io.old).free ≡ true }
        ensures made { Leads
            (λ again. forget again self.old.fd self.old.kept.numbers self.old.spare)
            (C.sight io.old) result self.new (C.sight io.new) }
        ensures room { Uses 0 self.old self.new }
    {
        let fd = self.fd;
        match ask(io, rt, alloc, Call::TRcvDis { fd, umax: 0 }) {
            Heard::Broken { seq, .. } => {
                self.kept.forget(seq);
                None
            }
            heard => Some(Err(fail_of(heard))),
        }
    }

    // Takes one more request.
    fn take<C: Caller, R: Wait + Sync>(
        &mut self,
        io: &mut C,
        rt: &R,
        alloc: Global,
    ) -> Option<Result<Sock, SockFail>>
        requires free { (C.sight io.old).free ≡ true }
        requires room { 1 ≤ self.old.kept.spare }
        ensures made { Leads
            (λ again. take again self.old.fd self.old.kept.numbers self.old.spare)
            (C.sight io.old) result self.new (C.sight io.new) }
        ensures room { Uses 1 self.old self.new }
    {
        let made = Call::TListen {
            fd: self.fd,
            amax: 0,
            omax: 0,
            umax: 0,
        };
        match ask(io, rt, alloc, made) {
            Heard::Listened(seq) => {
                self.kept.push(seq);
                None
            }
            Heard::Disconnect => self.forget(io, rt, alloc),
            heard => Some(Err(fail_of(heard))),
        }
    }

    // Accepts the request at the spare descriptor.
    fn accept_at<C: Caller, R: Wait + Sync>(
        &mut self,
        io: &mut C,
        rt: &R,
        alloc: Global,
        seq: Seq,
        resfd: Fd,
    ) -> Option<Result<Sock, SockFail>>
        requires free { (C.sight io.old).free ≡ true }
        requires room { 1 ≤ self.old.kept.spare }
        requires spare { self.old.spare ≡ Some resfd }
        ensures made { Leads (λ again. accept_at again self.old.fd seq self.old.kept.numbers resfd)
            (C.sight io.old) result self.new (C.sight io.new) }
        ensures room { Uses 1 self.old self.new }
    {
        let made = Call::TAccept {
            fd: self.fd,
            resfd,
            seq,
            opt: Octets::new(alloc),
            udata: Octets::new(alloc),
        };
        match ask(io, rt, alloc, made) {
            Heard::Done => {
                self.kept.drop_oldest();
                self.spare = None;
                Some(Ok(Sock::connected(resfd)))
            }
            Heard::Listen => self.take(io, rt, alloc),
            Heard::Disconnect => self.forget(io, rt, alloc),
            heard => Some(Err(fail_of(heard))),
        }
    }

    // Accepts the request, and opens a spare descriptor for it where there is none.
    fn serve_one<C: Caller, R: Wait + Sync>(
        &mut self,
        io: &mut C,
        rt: &R,
        alloc: Global,
        nonblock: bool,
        seq: Seq,
    ) -> Option<Result<Sock, SockFail>>
        requires free { (C.sight io.old).free ≡ true }
        requires room { 1 ≤ self.old.kept.spare }
        ensures made { Leads
            (λ again. serve_one again nonblock self.old.fd seq self.old.kept.numbers self.old.spare)
            (C.sight io.old) result self.new (C.sight io.new) }
        ensures room { Uses 1 self.old self.new }
    {
        match self.spare {
            Some(resfd) => self.accept_at(io, rt, alloc, seq, resfd),
            None => self.open_and_accept(io, rt, alloc, nonblock, seq),
        }
    }

    // Opens a spare descriptor, and accepts the request there.
    fn open_and_accept<C: Caller, R: Wait + Sync>(
        &mut self,
        io: &mut C,
        rt: &R,
        alloc: Global,
        nonblock: bool,
        seq: Seq,
    ) -> Option<Result<Sock, SockFail>>
        requires free { (C.sight io.old).free ≡ true }
        requires room { 1 ≤ self.old.kept.spare }
        requires spare { self.old.spare ≡ None }
        ensures made { Leads
            (λ again. serve_one again nonblock self.old.fd seq self.old.kept.numbers None)
            (C.sight io.old) result self.new (C.sight io.new) }
        ensures room { Uses 1 self.old self.new }
    {
        let made = Call::TOpen {
            prov: Prov::Ticotsord,
            nonblock,
        };
        match ask(io, rt, alloc, made) {
            Heard::Opened(resfd) => {
                self.spare = Some(resfd);
                self.accept_at(io, rt, alloc, seq, resfd)
            }
            heard => Some(Err(fail_of(heard))),
        }
    }

    // Accepts the oldest request, where there is one.
    fn serve<C: Caller, R: Wait + Sync>(
        &mut self,
        io: &mut C,
        rt: &R,
        alloc: Global,
        nonblock: bool,
    ) -> Option<Result<Sock, SockFail>>
        requires free { (C.sight io.old).free ≡ true }
        requires room { 1 ≤ self.old.kept.spare }
        ensures made { Leads
            (λ again. serve again nonblock self.old.fd self.old.kept.numbers self.old.spare)
            (C.sight io.old) result self.new (C.sight io.new) }
        ensures room { Uses 1 self.old self.new }
    {
        match self.kept.oldest() {
            Some(seq) => self.serve_one(io, rt, alloc, nonblock, seq),
            None => None,
        }
    }

    // One turn of an accept, which ends it but where a request was taken or taken back.
    fn turn<C: Caller, R: Wait + Sync>(
        &mut self,
        io: &mut C,
        rt: &R,
        alloc: Global,
        nonblock: bool,
    ) -> Option<Result<Sock, SockFail>>
        requires free { (C.sight io.old).free ≡ true }
        requires room { 2 ≤ self.old.kept.spare }
        ensures made { Leads
            (λ again. turn again nonblock self.old.fd self.old.kept.numbers self.old.spare)
            (C.sight io.old) result self.new (C.sight io.new) }
        ensures room { Uses 2 self.old self.new }
    {
        match self.kept.oldest() {
            Some(seq) => self.serve_one(io, rt, alloc, nonblock, seq),
            None => match self.take(io, rt, alloc) {
                None => self.serve(io, rt, alloc, nonblock),
                ended => ended,
            },
        }
    }

    /// The turns of an accept. Each takes two numbers at most.
    pub(crate) fn turns<C: Caller, R: Wait + Sync>(
        &mut self,
        io: &mut C,
        rt: &R,
        alloc: Global,
        nonblock: bool,
    ) -> Result<Sock, SockFail>
        requires free { (C.sight io.old).free ≡ true }
        requires room { 2 * MOST_TURNS ≤ self.old.kept.spare }
        ensures made { Runs
            (accept_turns MOST_TURNS nonblock self.old.fd self.old.kept.numbers self.old.spare)
            (C.sight io.old) (C.sight io.new) (made result) (left_by result (sock_of self.new)) }
        ensures fd { self.new.fd ≡ self.old.fd }
    {
        for _turn in 0..MOST_TURNS {
            if let Some(result) = self.turn(io, rt, alloc, nonblock) {
                return result;
            }
        }
        Err(SockFail::Again { turns: MOST_TURNS })
    }

    /// The phase of the socket after this answer.
    pub(crate) fn left(self, answer: &Result<Sock, SockFail>) -> Phase
        ensures { result ≡ (left_by answer.now (sock_of self)).phase }
    {
        match answer {
            Err(SockFail::Ended(_)) => Phase::Dead,
            _ => Phase::Listening {
                kept: self.kept.finish(),
                spare: self.spare,
            },
        }
    }
}
