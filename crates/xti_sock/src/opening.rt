//! How a socket comes to be connected, and how it ends.

ghost use Rattle.std.specs.Prelude.{◌≡◌, true, IfOk};
ghost use Rattle.xti_sock.specs.Rows.{OpensOne, bind, bound_in, bound_request, close, connect};
ghost use Rattle.xti_sock.specs.Rows.{finish, listen, may_connect, request, shutdown};
ghost use Rattle.xti_sock.specs.Scripts.{Makes, Runs, done};
ghost use Rattle.xti_sock.specs.Socks.{IsInStep, in_phase};

use crate::caller::Caller;
use crate::fail::SockFail;
use crate::heard::{Heard, ask, fail_of};
use crate::phase::Phase;
use crate::sock::Sock;
use std::alloc::Global;
use std::sync::Wait;
use xti_base::{Items, Octets, Prov};
use xti_laws::changes_are_named;
use xti_model::Call;

impl Sock {
    /// A socket of its own endpoint of ticotsord, with O_NONBLOCK or without. `step`: it is in step with its caller's entries.
    pub fn socket<C: Caller, R: Wait + Sync>(
        io: &mut C,
        rt: &R,
        alloc: Global,
        nonblock: bool,
    ) -> Result<Sock, SockFail>
        requires free { (C.sight io.old).free ≡ true }
        ensures made { OpensOne nonblock (C.sight io.old) (C.sight io.new) result }
        ensures step { IfOk result (λ sock. IsInStep sock (C.sight io.new).mine) }
    {
        changes_are_named();
        Sock::open_one(io, rt, alloc, nonblock)
    }

    // Opens an endpoint, for a socket of its own.
    fn open_one<C: Caller, R: Wait + Sync>(
        io: &mut C,
        rt: &R,
        alloc: Global,
        nonblock: bool,
    ) -> Result<Sock, SockFail>
        requires free { (C.sight io.old).free ≡ true }
        ensures made { OpensOne nonblock (C.sight io.old) (C.sight io.new) result }
    {
        let made = Call::TOpen {
            prov: Prov::Ticotsord,
            nonblock,
        };
        match ask(io, rt, alloc, made) {
            Heard::Opened(fd) => Ok(Sock {
                fd,
                phase: Phase::New,
            }),
            heard => Err(fail_of(heard)),
        }
    }

    /// Gives a new socket its address, which its endpoint is bound to once it listens or connects.
    pub fn bind<C: Caller, R: Wait + Sync>(
        &mut self,
        io: &mut C,
        rt: &R,
        alloc: Global,
        address: &[u8],
    ) -> Result<(), SockFail>
        requires free { (C.sight io.old).free ≡ true }
        requires step { IsInStep self.old (C.sight io.old).mine }
        ensures made { Makes (bind self.old address.now) self.old
            (C.sight io.old) (C.sight io.new) (done result) self.new }
        ensures step { IsInStep self.new (C.sight io.new).mine }
    {
        self.bind_by_phase(io, rt, alloc, address)
    }

    // By the phase.
    fn bind_by_phase<C: Caller, R: Wait + Sync>(
        &mut self,
        io: &mut C,
        _rt: &R,
        alloc: Global,
        address: &[u8],
    ) -> Result<(), SockFail>
        requires free { (C.sight io.old).free ≡ true }
        ensures made { Makes (bind self.old address.now) self.old
            (C.sight io.old) (C.sight io.new) (done result) self.new }
    {
        let Phase::New = self.phase else {
            return Err(SockFail::WrongPhase);
        };
        let Ok(address) = Octets::copy_of(alloc, address) else {
            return Err(SockFail::OutOfMemory);
        };
        self.set_phase(Phase::Named {
            address,
            bound: false,
        });
        Ok(())
    }

    /// Waits for others to connect to the socket's address, so many at once. A socket whose endpoint a connect has bound already is
    /// refused so, with `Xti`: TOUTSTATE.
    pub fn listen<C: Caller, R: Wait + Sync>(
        &mut self,
        io: &mut C,
        rt: &R,
        alloc: Global,
        backlog: u32,
    ) -> Result<(), SockFail>
        requires free { (C.sight io.old).free ≡ true }
        requires step { IsInStep self.old (C.sight io.old).mine }
        ensures made { Makes (listen self.old backlog) self.old
            (C.sight io.old) (C.sight io.new) (done result) self.new }
        ensures step { IsInStep self.new (C.sight io.new).mine }
    {
        self.listen_by_phase(io, rt, alloc, backlog)
    }

    // By the phase.
    fn listen_by_phase<C: Caller, R: Wait + Sync>(
        &mut self,
        io: &mut C,
        rt: &R,
        alloc: Global,
        backlog: u32,
    ) -> Result<(), SockFail>
        requires free { (C.sight io.old).free ≡ true }
        ensures made { Makes (listen self.old backlog) self.old
            (C.sight io.old) (C.sight io.new) (done result) self.new }
    {
        let fd = self.fd;
        let Phase::Named { address, .. } = &self.phase else {
            return Err(SockFail::WrongPhase);
        };
        let Ok(addr) = address.copy() else {
            return Err(SockFail::OutOfMemory);
        };
        let made = Call::TBind {
            fd,
            addr,
            qlen: backlog,
            amax: 0,
        };
        match ask(io, rt, alloc, made) {
            Heard::Bound => {
                self.set_phase(Phase::Listening {
                    kept: Items::new(alloc),
                    spare: None,
                });
                Ok(())
            }
            heard => Err(self.stop(heard)),
        }
    }

    /// Goes on with a connect that would have had to wait.
    pub fn finish<C: Caller, R: Wait + Sync>(
        &mut self,
        io: &mut C,
        rt: &R,
        alloc: Global,
    ) -> Result<(), SockFail>
        requires free { (C.sight io.old).free ≡ true }
        requires step { IsInStep self.old (C.sight io.old).mine }
        ensures made { Runs (finish self.old)
            (C.sight io.old) (C.sight io.new) (done result) self.new }
        ensures step { IsInStep self.new (C.sight io.new).mine }
    {
        self.finish_by_phase(io, rt, alloc)
    }

    // By the phase.
    fn finish_by_phase<C: Caller, R: Wait + Sync>(
        &mut self,
        io: &mut C,
        rt: &R,
        alloc: Global,
    ) -> Result<(), SockFail>
        requires free { (C.sight io.old).free ≡ true }
        ensures made { Runs (finish self.old)
            (C.sight io.old) (C.sight io.new) (done result) self.new }
    {
        let Phase::Connecting = self.phase else {
            return Err(SockFail::WrongPhase);
        };
        let made = Call::TRcvConnect {
            fd: self.fd,
            amax: 0,
            omax: 0,
            umax: 0,
        };
        match ask(io, rt, alloc, made) {
            Heard::Connected => {
                self.set_phase(Phase::Open {
                    shut: false,
                    ended: false,
                });
                Ok(())
            }
            Heard::Disconnect => Err(self.reset(io, rt, alloc)),
            heard => Err(self.stop(heard)),
        }
    }

    /// Releases the output; the other side's input ends after what was sent.
    pub fn shutdown<C: Caller, R: Wait + Sync>(
        &mut self,
        io: &mut C,
        rt: &R,
        alloc: Global,
    ) -> Result<(), SockFail>
        requires free { (C.sight io.old).free ≡ true }
        requires step { IsInStep self.old (C.sight io.old).mine }
        ensures made { Runs (shutdown self.old)
            (C.sight io.old) (C.sight io.new) (done result) self.new }
        ensures step { IsInStep self.new (C.sight io.new).mine }
    {
        self.shutdown_by_phase(io, rt, alloc)
    }

    // By the phase.
    fn shutdown_by_phase<C: Caller, R: Wait + Sync>(
        &mut self,
        io: &mut C,
        rt: &R,
        alloc: Global,
    ) -> Result<(), SockFail>
        requires free { (C.sight io.old).free ≡ true }
        ensures made { Runs (shutdown self.old)
            (C.sight io.old) (C.sight io.new) (done result) self.new }
    {
        let Phase::Open { shut: false, ended } = self.phase else {
            return Err(SockFail::WrongPhase);
        };
        let fd = self.fd;
        match ask(io, rt, alloc, Call::TSndRel { fd }) {
            Heard::Done => {
                self.set_phase(Phase::Open { shut: true, ended });
                Ok(())
            }
            Heard::Disconnect => Err(self.reset(io, rt, alloc)),
            heard => Err(self.stop(heard)),
        }
    }

    /// Closes the socket's endpoint.
    pub fn close<C: Caller, R: Wait + Sync>(
        &mut self,
        io: &mut C,
        rt: &R,
        alloc: Global,
    ) -> Result<(), SockFail>
        requires free { (C.sight io.old).free ≡ true }
        requires step { IsInStep self.old (C.sight io.old).mine }
        ensures made { Runs (close self.old)
            (C.sight io.old) (C.sight io.new) (done result) self.new }
        ensures step { IsInStep self.new (C.sight io.new).mine }
    {
        self.close_by_phase(io, rt, alloc)
    }

    // By the phase.
    fn close_by_phase<C: Caller, R: Wait + Sync>(
        &mut self,
        io: &mut C,
        rt: &R,
        alloc: Global,
    ) -> Result<(), SockFail>
        requires free { (C.sight io.old).free ≡ true }
        ensures made { Runs (close self.old)
            (C.sight io.old) (C.sight io.new) (done result) self.new }
    {
        if self.is_dead() {
            return Err(SockFail::WrongPhase);
        }
        let fd = self.fd;
        match ask(io, rt, alloc, Call::TClose { fd }) {
            Heard::Done => {
                self.set_phase(Phase::Dead);
                Ok(())
            }
            heard => Err(self.stop(heard)),
        }
    }

    // Whether it may ask for a connection.
    fn may_connect(&self) -> bool
        ensures { result ≡ may_connect self.now.phase }
    {
        matches!(self.phase, Phase::New | Phase::Named { .. })
    }

    // Its endpoint is bound.
    fn set_bound(&mut self, alloc: Global)
        ensures { self.new ≡ in_phase self.old (bound_in self.old.phase) }
    {
        match &mut self.phase {
            Phase::New => self.set_phase(Phase::Named {
                address: Octets::new(alloc),
                bound: true,
            }),
            Phase::Named { bound, .. } => *bound = true,
            _ => {}
        }
    }

    // Asks for a connection, by an endpoint that is bound.
    fn request<C: Caller, R: Wait + Sync>(
        &mut self,
        io: &mut C,
        rt: &R,
        alloc: Global,
        to: Octets,
    ) -> Result<(), SockFail>
        requires free { (C.sight io.old).free ≡ true }
        ensures made { Runs (request to self.old)
            (C.sight io.old) (C.sight io.new) (done result) self.new }
    {
        let made = Call::TConnect {
            fd: self.fd,
            addr: to,
            opt: Octets::new(alloc),
            udata: Octets::new(alloc),
            amax: 0,
            omax: 0,
            umax: 0,
        };
        match ask(io, rt, alloc, made) {
            Heard::Connected => {
                self.set_phase(Phase::Open {
                    shut: false,
                    ended: false,
                });
                Ok(())
            }
            Heard::Waits => {
                self.set_phase(Phase::Connecting);
                Err(SockFail::WouldBlock)
            }
            Heard::Disconnect => Err(self.reset(io, rt, alloc)),
            heard => Err(self.stop(heard)),
        }
    }

    // Binds the endpoint to this address, and asks for a connection.
    fn bound_request<C: Caller, R: Wait + Sync>(
        &mut self,
        io: &mut C,
        rt: &R,
        alloc: Global,
        address: Octets,
        to: Octets,
    ) -> Result<(), SockFail>
        requires free { (C.sight io.old).free ≡ true }
        ensures made { Runs (bound_request address to self.old)
            (C.sight io.old) (C.sight io.new) (done result) self.new }
    {
        let made = Call::TBind {
            fd: self.fd,
            addr: address,
            qlen: 0,
            amax: 0,
        };
        match ask(io, rt, alloc, made) {
            Heard::Bound => {
                self.set_bound(alloc);
                self.request(io, rt, alloc, to)
            }
            heard => Err(self.stop(heard)),
        }
    }

    /// Connects to the address; a socket without one is bound to an address that the provider chooses. `WouldBlock`: the
    /// connection is on its way, and `finish` goes on with it. After another refusal the endpoint stays bound, and a further
    /// connect doesn't bind it again.
    pub fn connect<C: Caller, R: Wait + Sync>(
        &mut self,
        io: &mut C,
        rt: &R,
        alloc: Global,
        address: &[u8],
    ) -> Result<(), SockFail>
        requires free { (C.sight io.old).free ≡ true }
        requires step { IsInStep self.old (C.sight io.old).mine }
        ensures made { Makes (connect self.old address.now) self.old
            (C.sight io.old) (C.sight io.new) (done result) self.new }
        ensures step { IsInStep self.new (C.sight io.new).mine }
    {
        self.connect_by_phase(io, rt, alloc, address)
    }

    // By the phase.
    fn connect_by_phase<C: Caller, R: Wait + Sync>(
        &mut self,
        io: &mut C,
        rt: &R,
        alloc: Global,
        address: &[u8],
    ) -> Result<(), SockFail>
        requires free { (C.sight io.old).free ≡ true }
        ensures made { Makes (connect self.old address.now) self.old
            (C.sight io.old) (C.sight io.new) (done result) self.new }
    {
        if !self.may_connect() {
            return Err(SockFail::WrongPhase);
        }
        let Ok(to) = Octets::copy_of(alloc, address) else {
            return Err(SockFail::OutOfMemory);
        };
        match &self.phase {
            Phase::New => self.bound_request(io, rt, alloc, Octets::new(alloc), to),
            Phase::Named {
                address,
                bound: false,
            } => match address.copy() {
                Ok(own) => self.bound_request(io, rt, alloc, own, to),
                Err(_) => Err(SockFail::OutOfMemory),
            },
            Phase::Named { bound: true, .. } => self.request(io, rt, alloc, to),
            _ => Err(SockFail::WrongPhase),
        }
    }
}
