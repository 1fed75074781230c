//! How a socket that listens accepts.

ghost use Rattle.std.specs.Prelude.{◌≡◌, true, IfOk};
ghost use Rattle.xti_sock.specs.Accepting.{accept};
ghost use Rattle.xti_sock.specs.Scripts.{Makes, made};
ghost use Rattle.xti_sock.specs.Socks.{IsInStep};

use crate::caller::Caller;
use crate::fail::SockFail;
use crate::kept::Kept;
use crate::limits::MOST_TAKEN;
use crate::listener::Listener;
use crate::phase::Phase;
use crate::sock::Sock;
use std::alloc::Global;
use std::sync::Wait;
use xti_laws::changes_are_named;

impl Sock {
    /// Accepts the oldest request to connect, at an endpoint of its own, with O_NONBLOCK or without.
    ///
    /// It takes a request where it keeps none, opens an endpoint where it has no spare one, and takes or forgets requests where XTI
    /// asks for that first. What it doesn't use it keeps for the next accept. `Again`: each of 64 turns took a
    /// request, or forgot one. `accepted`: the new socket is in step too.
    pub fn accept<C: Caller, R: Wait + Sync>(
        &mut self,
        io: &mut C,
        rt: &R,
        alloc: Global,
        nonblock: bool,
    ) -> Result<Sock, SockFail>
        requires free { (C.sight io.old).free ≡ true }
        requires step { IsInStep self.old (C.sight io.old).mine }
        ensures made { Makes (accept self.old nonblock) self.old
            (C.sight io.old) (C.sight io.new) (made result) self.new }
        ensures step { IsInStep self.new (C.sight io.new).mine }
        ensures accepted { IfOk result (λ sock. IsInStep sock (C.sight io.new).mine) }
    {
        changes_are_named();
        self.accept_by_phase(io, rt, alloc, nonblock)
    }

    // By the phase.
    fn accept_by_phase<C: Caller, R: Wait + Sync>(
        &mut self,
        io: &mut C,
        rt: &R,
        alloc: Global,
        nonblock: bool,
    ) -> Result<Sock, SockFail>
        requires free { (C.sight io.old).free ≡ true }
        ensures made { Makes (accept self.old nonblock) self.old
            (C.sight io.old) (C.sight io.new) (made result) self.new }
    {
        let fd = self.fd;
        let Phase::Listening { kept, spare } = &self.phase else {
            return Err(SockFail::WrongPhase);
        };
        let spare = *spare;
        let Ok(kept) = Kept::with_room(alloc, kept.as_slice(), MOST_TAKEN) else {
            return Err(SockFail::OutOfMemory);
        };
        let mut listener = Listener { fd, kept, spare };
        let result = listener.turns(io, rt, alloc, nonblock);
        let phase = listener.left(&result);
        self.set_phase(phase);
        result
    }
}
