//! Sockets.

ghost use Rattle.std.specs.Prelude.{◌≡◌, ◌≤◌, ◌++◌, ℕ, List, [], Ok, Err, true};
ghost use Rattle.xti_model.specs.declared.call.Call.TheVariants.{TSnd};
ghost use Rattle.xti_sock.specs.declared.limits.TheConstants.{MOST_TURNS};
ghost use Rattle.xti_sock.specs.Accepting.{open_sock};
ghost use Rattle.xti_sock.specs.Rows.{fail_of, is_dead, on_send_again, recv, recv_turns, reset, send};
ghost use Rattle.xti_sock.specs.Rows.{send_made, sock_after, with_end};
ghost use Rattle.xti_sock.specs.Socks.{in_phase, was_released, IsInStep};
ghost use Rattle.xti_sock.specs.Scripts.{IsFreeAfter, Makes, Runs, counted, octets, received};
ghost use Rattle.xti_sock.specs.Streams.{IsStreamOf, bytes_in, input};
ghost use Rattle.xti_sock.specs.Steps.{Receives, Releases};

use crate::caller::Caller;
use crate::fail::SockFail;
use crate::heard::{Heard, ask, ask_once, fail_of};
use crate::limits::MOST_TURNS;
use crate::phase::Phase;
use std::alloc::Global;
use std::sync::Wait;
use xti_base::{Fd, Octets, let_go};
use xti_laws::changes_are_named;
use xti_model::Call;

/// A socket over ticotsord.
#[derive(Drop)]
pub struct Sock {
    pub(crate) fd: Fd,
    pub(crate) phase: Phase,
}

impl Sock {
    /// The descriptor of its endpoint. Takes no memory.
    pub fn fd(&self) -> Fd
        ensures { result ≡ self.now.fd }
    {
        self.fd
    }

    /// How far it has come. Takes no memory.
    pub fn phase(&self) -> &Phase
        ensures { result.now ≡ self.now.phase }
    {
        &self.phase
    }

    // A socket that is connected at this descriptor.
    pub(crate) fn connected(fd: Fd) -> Sock
        ensures { result ≡ open_sock fd }
    {
        Sock {
            fd,
            phase: Phase::Open {
                shut: false,
                ended: false,
            },
        }
    }

    pub(crate) fn set_phase(&mut self, phase: Phase)
        ensures { self.new ≡ in_phase self.old phase }
    {
        self.phase = phase;
    }

    // It is of no more use.
    pub(crate) fn is_dead(&self) -> bool
        ensures { result ≡ is_dead self.now.phase }
    {
        matches!(self.phase, Phase::Dead)
    }

    // The input has ended.
    fn end_input(&mut self)
        ensures { self.new ≡ with_end self.old }
    {
        if let Phase::Open { ended, .. } = &mut self.phase {
            *ended = true;
        }
    }

    // What was heard ends the call.
    pub(crate) fn stop(&mut self, heard: Heard) -> SockFail
        ensures fail { result ≡ fail_of heard }
        ensures sock { self.new ≡ sock_after heard self.old }
    {
        let fail = fail_of(heard);
        if let SockFail::Ended(_) = fail {
            self.set_phase(Phase::Dead);
        }
        fail
    }

    // The connection was broken: takes the disconnect.
    pub(crate) fn reset<C: Caller, R: Wait + Sync>(
        &mut self,
        io: &mut C,
        rt: &R,
        alloc: Global,
    ) -> SockFail
        requires free { (C.sight io.old).free ≡ true }
        ensures made { Runs (reset self.old)
            (C.sight io.old) (C.sight io.new) (Err result) self.new }
    {
        let fd = self.fd;
        match ask(io, rt, alloc, Call::TRcvDis { fd, umax: 0 }) {
            Heard::Broken { reason, .. } => {
                self.set_phase(Phase::Failed);
                SockFail::Reset { reason }
            }
            other => self.stop(other),
        }
    }

    // Takes the release. Where that answered Ok the call goes on; else it ends so.
    fn release<C: Caller, R: Wait + Sync>(
        &mut self,
        io: &mut C,
        rt: &R,
        alloc: Global,
    ) -> Option<SockFail>
        requires free { (C.sight io.old).free ≡ true }
        ensures made { Releases self.old (C.sight io.old) result self.new (C.sight io.new) }
    {
        let fd = self.fd;
        match ask(io, rt, alloc, Call::TRcvRel { fd }) {
            Heard::Done => {
                self.end_input();
                None
            }
            other => Some(self.stop(other)),
        }
    }

    // One turn of a receive, which ends it but where expedited bytes came.
    fn recv_turn<C: Caller, R: Wait + Sync>(
        &mut self,
        io: &mut C,
        rt: &R,
        alloc: Global,
        max: u32,
    ) -> Option<Result<Octets, SockFail>>
        requires free { (C.sight io.old).free ≡ true }
        ensures made { Receives self.old max (C.sight io.old) result self.new (C.sight io.new) }
    {
        let fd = self.fd;
        match ask(io, rt, alloc, Call::TRcv { fd, max }) {
            Heard::Got(bytes) => Some(Ok(bytes)),
            Heard::Urgent => None,
            Heard::Disconnect => Some(Err(self.reset(io, rt, alloc))),
            Heard::Release => match self.release(io, rt, alloc) {
                None => Some(Ok(Octets::new(alloc))),
                Some(fail) => Some(Err(fail)),
            },
            heard => Some(Err(self.stop(heard))),
        }
    }

    // The turns of a receive.
    fn recv_turns<C: Caller, R: Wait + Sync>(
        &mut self,
        io: &mut C,
        rt: &R,
        alloc: Global,
        max: u32,
    ) -> Result<Octets, SockFail>
        requires free { (C.sight io.old).free ≡ true }
        ensures made { Runs (recv_turns MOST_TURNS self.old max)
            (C.sight io.old) (C.sight io.new) (received result) self.new }
    {
        for _turn in 0..MOST_TURNS {
            if let Some(result) = self.recv_turn(io, rt, alloc, max) {
                return result;
            }
        }
        Err(SockFail::Again { turns: MOST_TURNS })
    }

    // Receives, by the phase.
    fn recv_by_phase<C: Caller, R: Wait + Sync>(
        &mut self,
        io: &mut C,
        rt: &R,
        alloc: Global,
        max: u32,
    ) -> Result<Octets, SockFail>
        requires free { (C.sight io.old).free ≡ true }
        ensures made { Runs (recv self.old max)
            (C.sight io.old) (C.sight io.new) (received result) self.new }
    {
        match self.phase {
            Phase::Open { ended: false, .. } => self.recv_turns(io, rt, alloc, max),
            Phase::Open { ended: true, .. } => Ok(Octets::new(alloc)),
            _ => Err(SockFail::WrongPhase),
        }
    }

    /// Receives at most so many bytes, at least one; none where the other side has released the connection.
    ///
    /// `input`: what it answers is just what is received more on the socket's descriptor; an error answers nothing. `end`: where a
    /// release was received on the descriptor, it answers no bytes. `none`: of a stream, on a descriptor that the caller opened, it
    /// answers no bytes only there.
    pub fn recv<C: Caller, R: Wait + Sync>(
        &mut self,
        io: &mut C,
        rt: &R,
        alloc: Global,
        max: u32,
    ) -> Result<Octets, SockFail>
        requires free { (C.sight io.old).free ≡ true }
        requires step { IsInStep self.old (C.sight io.old).mine }
        requires max { 1 ≤ max }
        ensures made { Runs (recv self.old max)
            (C.sight io.old) (C.sight io.new) (received result) self.new }
        ensures step { IsInStep self.new (C.sight io.new).mine }
        ensures input { input self.old.fd (C.sight io.new).mine
            ≡ input self.old.fd (C.sight io.old).mine ++ bytes_in (received result) }
        ensures end { was_released self.old.fd (C.sight io.new).mine ≡ true
            → bytes_in (received result) ≡ [] }
        ensures none { IsStreamOf (C.sight io.old) self.old.fd → received result ≡ Ok (octets [])
            → was_released self.old.fd (C.sight io.new).mine ≡ true }
    {
        changes_are_named();
        self.recv_by_phase(io, rt, alloc, max)
    }

    // A send with this call, which is made again after a release.
    fn send_made<C: Caller, R: Wait + Sync>(
        &mut self,
        io: &mut C,
        rt: &R,
        alloc: Global,
        made: &Call,
    ) -> Result<u32, SockFail>
        requires free { (C.sight io.old).free ≡ true }
        ensures made { (bytes : List ℕ) → made.now ≡ TSnd self.old.fd bytes 0
            → Runs (send_made bytes self.old)
            (C.sight io.old) (C.sight io.new) (counted result) self.new }
    {
        match ask_once(io, rt, alloc, made) {
            Heard::Release => match self.release(io, rt, alloc) {
                None => {
                    let heard = ask_once(io, rt, alloc, made);
                    self.sent(io, rt, alloc, heard)
                }
                Some(fail) => Err(fail),
            },
            heard => self.sent(io, rt, alloc, heard),
        }
    }

    // What was heard ends the send.
    fn sent<C: Caller, R: Wait + Sync>(
        &mut self,
        io: &mut C,
        rt: &R,
        alloc: Global,
        heard: Heard,
    ) -> Result<u32, SockFail>
        requires free { IsFreeAfter heard (C.sight io.old) }
        ensures made { Runs (on_send_again self.old heard)
            (C.sight io.old) (C.sight io.new) (counted result) self.new }
    {
        match heard {
            Heard::Sent(n) => Ok(n),
            Heard::Disconnect => Err(self.reset(io, rt, alloc)),
            heard => Err(self.stop(heard)),
        }
    }

    // Sends, by the phase.
    fn send_by_phase<C: Caller, R: Wait + Sync>(
        &mut self,
        io: &mut C,
        rt: &R,
        alloc: Global,
        bytes: &[u8],
    ) -> Result<u32, SockFail>
        requires free { (C.sight io.old).free ≡ true }
        ensures made { Makes (send self.old bytes.now) self.old
            (C.sight io.old) (C.sight io.new) (counted result) self.new }
    {
        let Phase::Open { shut: false, .. } = self.phase else {
            return Err(SockFail::WrongPhase);
        };
        let fd = self.fd;
        let Ok(bytes) = Octets::copy_of(alloc, bytes) else {
            return Err(SockFail::OutOfMemory);
        };
        let made = Call::TSnd {
            fd,
            bytes,
            flags: 0,
        };
        let sent = self.send_made(io, rt, alloc, &made);
        let_go(made);
        sent
    }

    /// Sends bytes, and answers how many were taken.
    pub fn send<C: Caller, R: Wait + Sync>(
        &mut self,
        io: &mut C,
        rt: &R,
        alloc: Global,
        bytes: &[u8],
    ) -> Result<u32, SockFail>
        requires free { (C.sight io.old).free ≡ true }
        requires step { IsInStep self.old (C.sight io.old).mine }
        ensures made { Makes (send self.old bytes.now) self.old
            (C.sight io.old) (C.sight io.new) (counted result) self.new }
        ensures step { IsInStep self.new (C.sight io.new).mine }
    {
        self.send_by_phase(io, rt, alloc, bytes)
    }
}
