//! Endpoints: to open them, to bind them, and what they tell.

ghost use Rattle.std.specs.Prelude.{◌≡◌};
ghost use Rattle.xti_model.specs.declared.call.Call.TheVariants as call;
ghost use Rattle.xti_calls.specs.Forms.{Makes, Negotiates, Opens, TellsAddresses};
ghost use Rattle.xti_calls.specs.Typed.{IsBound, IsDone, IsInfo, IsSeen, IsState};
ghost use Rattle.xti_calls.specs.Library.{GoesOn};

use crate::answers::{Fail, addresses, bound, done, info, negotiated, opened, seen, state};
use crate::caller::Caller;
use std::sync::Wait;
use xti_base::{Event, Fd, Info, Octets, Prov, State};
use xti_model::Call;

#[tactic(auto, using(crate::proofs::Replied::makes_told), unfolding(xti_verbs::specs::Verbs::row_of))]
impl<'a, R: Wait + Sync> Caller<'a, R> {
    /// Opens an endpoint of a loopback provider and answers its descriptor (XNS, t_open).
    ///
    /// `name` is exactly `ticots` (connections), `ticotsord` (connections with orderly release) or `ticlts` (datagrams), and no
    /// path of a device. `nonblock` is O_NONBLOCK; `set_mode` changes it later. The endpoint is in T_UNBND, without an address,
    /// with the provider's buffer sizes. It has the least place that is free, of 64 in version 1 and 256 in version 2
    /// (`Providers::places`). The descriptor is the number of places times the number of times that its place was closed, plus
    /// the place, so none is given twice. What t_info has in C comes from `t_getinfo`.
    /// The call doesn't wait.
    ///
    /// # Errors
    ///
    /// XTI ([`Fail`]) answers the first that holds; nothing has changed then:
    /// - TBADNAME: `name` is none of the three.
    /// - TSYSERR: each place is open, or was closed 67,108,863 times (16,777,215 times in version 2).
    pub fn t_open(&mut self, name: &[u8], nonblock: bool) -> Result<Fd, Fail>
        ensures seat { GoesOn self.old self.new }
        ensures made { Opens name.now nonblock self.old self.new result }
    {
        let prov = Prov::of_name(name);
        opened(self.reply(Call::TOpen { prov, nonblock }))
    }

    /// Closes an endpoint, in whatever state it is (XNS, t_close).
    ///
    /// Its address and its descriptor are given up, and what waits there is lost. The other end of its connection, where it
    /// still has it, loses what it hasn't received, and gets a disconnect with reason 5 and no data. Each caller whose request
    /// the endpoint hasn't answered gets such a disconnect too. A request of its own that isn't answered is taken back: where
    /// the listener has taken it, the listener gets a disconnect with reason 5 and the request's sequence number, and else the
    /// request is gone. None of these changes its state: each takes its disconnect by `t_rcvdis`. A call by another seat that
    /// waits at the endpoint is refused with TBADF; a send that has taken bytes answers how many. The call doesn't wait.
    ///
    /// # Errors
    ///
    /// XTI ([`Fail`]) answers TBADF alone: no endpoint is open with `fd`.
    pub fn t_close(&mut self, fd: Fd) -> Result<(), Fail>
        ensures seat { GoesOn self.old self.new }
        ensures made { Makes (call.TClose fd) IsDone self.old self.new result }
    {
        done(self.reply(Call::TClose { fd }))
    }

    /// Binds an endpoint to an address, and answers the address and the queue length that it has then (XNS, t_bind).
    ///
    /// The endpoint goes from T_UNBND to T_IDLE. `addr` has at most 64 bytes. In place of an empty one the provider chooses `#`
    /// and the least decimal number, from 0 on, that gives an address which nobody has at this provider. Each provider has
    /// addresses of its own. `qlen` is how many requests to connect may wait for an answer, those that `t_listen` took among
    /// them: 8 is given in place of more, and 0 at `ticlts`. With 0 the endpoint takes no requests. `amax` is how many bytes of
    /// the address the caller takes at most; with 0 an empty address is answered. The call doesn't wait.
    ///
    /// # Errors
    ///
    /// XTI ([`Fail`]) answers the first that holds; nothing has changed but after TBUFOVFLW:
    /// - TBADF: no endpoint is open with `fd`.
    /// - TOUTSTATE: the state isn't T_UNBND.
    /// - TBADADDR: `addr` has more than 64 bytes.
    /// - TADDRBUSY: at `ticlts`, an endpoint is bound to `addr`. At the others, `qlen` is over 0, and an endpoint with a queue
    ///   length over 0 is bound to it; any number of endpoints without a queue may have one address.
    /// - TBUFOVFLW: the address that is given is longer than `amax`, and `amax` isn't 0. The endpoint is bound all the same.
    pub fn t_bind(
        &mut self,
        fd: Fd,
        addr: &[u8],
        qlen: u32,
        amax: u32,
    ) -> Result<(Octets, u32), Fail>
        ensures seat { GoesOn self.old self.new }
        ensures made { Makes (call.TBind fd addr.now qlen amax) IsBound self.old self.new result }
    {
        let addr = made_or_fail!(self, Octets::copy_of(self.alloc, addr));
        bound(self.reply(Call::TBind {
            fd,
            addr,
            qlen,
            amax,
        }))
    }

    /// Takes its address from an endpoint, which goes from T_IDLE to T_UNBND (XNS, t_unbind).
    ///
    /// Its queue length, the datagram errors that wait and the marks of sends that were answered TFLOW are gone too. Its mode
    /// and its buffer sizes stay. The call doesn't wait.
    ///
    /// # Errors
    ///
    /// XTI ([`Fail`]) answers the first that holds; nothing has changed then:
    /// - TBADF: no endpoint is open with `fd`.
    /// - TOUTSTATE: the state isn't T_IDLE.
    /// - TLOOK with T_LISTEN: a request to connect waits that no `t_listen` has taken.
    /// - TLOOK with T_DATA: a datagram waits.
    pub fn t_unbind(&mut self, fd: Fd) -> Result<(), Fail>
        ensures seat { GoesOn self.old self.new }
        ensures made { Makes (call.TUnbind fd) IsDone self.old self.new result }
    {
        done(self.reply(Call::TUnbind { fd }))
    }

    /// Answers the first event that is pending at an endpoint; `None` where there is none (XNS, t_look).
    ///
    /// The events in their order, and the call that takes what each of them tells of:
    /// - T_DISCONNECT: a disconnect waits (`t_rcvdis`).
    /// - T_LISTEN: a request to connect waits (`t_listen`).
    /// - T_CONNECT: in T_OUTCON, the endpoint's own request was accepted (`t_rcvconnect`).
    /// - T_UDERR: the error of a datagram waits (`t_rcvuderr`).
    /// - T_EXDATA, then T_DATA: in T_DATAXFER or T_OUTREL, expedited data wait, or normal data. A datagram is T_DATA too.
    ///   Normal data aren't told between an expedited receive that took no end and the one that takes it.
    /// - T_ORDREL: in T_DATAXFER or T_OUTREL, the other end has released, and all its data were received (`t_rcvrel`).
    /// - T_GOEXDATA, then T_GODATA: a send of the kind was answered TFLOW, none was done since, and there is room again.
    ///
    /// A look clears T_GOEXDATA or T_GODATA where it answers it, and changes nothing else. The call doesn't wait.
    ///
    /// # Errors
    ///
    /// XTI ([`Fail`]) answers TBADF alone: no endpoint is open with `fd`.
    pub fn t_look(&mut self, fd: Fd) -> Result<Option<Event>, Fail>
        ensures seat { GoesOn self.old self.new }
        ensures made { Makes (call.TLookAt fd) IsSeen self.old self.new result }
    {
        seen(self.reply(Call::TLookAt { fd }))
    }

    /// Answers the state of an endpoint (XNS, t_getstate).
    ///
    /// It is T_UNBND, T_IDLE, T_OUTCON, T_INCON, T_DATAXFER, T_OUTREL or T_INREL. T_UNINIT is never answered: where no endpoint
    /// is open the call is refused. An endpoint whose connection the other end has broken keeps its state until it takes its
    /// disconnect, and a `t_connect` that waits has its endpoint in T_OUTCON. The call changes nothing and doesn't wait.
    ///
    /// # Errors
    ///
    /// XTI ([`Fail`]) answers TBADF alone: no endpoint is open with `fd`. TSTATECHNG never comes.
    pub fn t_getstate(&mut self, fd: Fd) -> Result<State, Fail>
        ensures seat { GoesOn self.old self.new }
        ensures made { Makes (call.TGetState fd) IsState self.old self.new result }
    {
        state(self.reply(Call::TGetState { fd }))
    }

    /// Answers the state of an endpoint, as `t_getstate` does (XNS, t_sync).
    ///
    /// In C it brings what the library knows of a descriptor up to date, as after a dup or an exec. Here all seats make their
    /// calls on the same endpoints, so nothing is left to be brought up to date. The call changes nothing and doesn't wait.
    ///
    /// # Errors
    ///
    /// XTI ([`Fail`]) answers TBADF alone: no endpoint is open with `fd`.
    pub fn t_sync(&mut self, fd: Fd) -> Result<State, Fail>
        ensures seat { GoesOn self.old self.new }
        ensures made { Makes (call.TSync fd) IsState self.old self.new result }
    {
        state(self.reply(Call::TSync { fd }))
    }

    /// Answers what the endpoint's provider offers: its limits, its service type and its flags (XNS, t_getinfo).
    ///
    /// Limits are in bytes; `Limit::Infinite` is T_INFINITE, and `Limit::Invalid` is T_INVALID: the provider doesn't have this.
    /// At each provider an address has at most 64 bytes, and options 256. At `ticots` and `ticotsord` an expedited message has
    /// at most 128 bytes, and data that go with a request, its answer or a disconnect 64; `ticlts` has none of them. `tsdu`,
    /// and T_SENDZERO (1) and T_ORDRELDATA (2) in `flags`, are those of the `Providers` that the library was made with: data may
    /// go with an orderly release of `ticotsord` where it has `reldata`, which it hasn't by default; the usual `tsdu` is 65,536
    /// at `ticots`, 0 (a stream of bytes) at `ticotsord` and 8,192 at `ticlts`. The answer is the same in every state. The call
    /// changes nothing and doesn't wait.
    ///
    /// # Errors
    ///
    /// XTI ([`Fail`]) answers TBADF alone: no endpoint is open with `fd`.
    pub fn t_getinfo(&mut self, fd: Fd) -> Result<Info, Fail>
        ensures seat { GoesOn self.old self.new }
        ensures made { Makes (call.TGetInfo fd) IsInfo self.old self.new result }
    {
        info(self.reply(Call::TGetInfo { fd }))
    }

    /// Answers the address that an endpoint is bound to, and that of the other end of its connection (XNS, t_getprotaddr).
    ///
    /// The first is empty where the endpoint is bound to none. The second is told in T_OUTCON, once the endpoint's request was
    /// accepted, and in T_DATAXFER, T_OUTREL and T_INREL; it is empty in the other states, and once the other end has broken
    /// the connection. `amax` and `pmax` are how many bytes of the first and of the second the caller takes at most; with 0
    /// that address is answered as empty. Addresses have at most 64 bytes. The call changes nothing and doesn't wait.
    ///
    /// # Errors
    ///
    /// XTI ([`Fail`]) answers the first that holds; nothing has changed then:
    /// - TBADF: no endpoint is open with `fd`.
    /// - TBUFOVFLW: the first is longer than `amax`, which isn't 0, or the second than `pmax`, which isn't 0. Neither is told.
    pub fn t_getprotaddr(&mut self, fd: Fd, amax: u32, pmax: u32) -> Result<(Octets, Octets), Fail>
        ensures seat { GoesOn self.old self.new }
        ensures made { TellsAddresses fd amax pmax self.old self.new result }
    {
        addresses(self.reply(Call::TGetProtAddr { fd, amax, pmax }))
    }

    /// Negotiates or tells options, and answers the overall result and the options with their values (XNS, t_optmgmt).
    ///
    /// `action` is T_NEGOTIATE (4), T_CHECK (8), T_DEFAULT (16) or T_CURRENT (128); `xti_opt` has these numbers, and those of
    /// options and results. `opt` is a list of options of one level, at most 256 bytes, in the form of t_opthdr that
    /// `write_options` of `xti_opt` writes. `omax` is how many bytes of options the caller takes at most; with 0 none are
    /// answered.
    ///
    /// Each option is answered in its place with its result as status. At XTI_GENERIC, XTI_SNDBUF and XTI_RCVBUF are sizes of 1
    /// to 65,536 bytes, in one word, and XTI_SNDLOWAT and XTI_RCVLOWAT are read only; any other option is T_NOTSUPPORT.
    /// T_NEGOTIATE sets a size (65,536 in place of more, with T_PARTSUCCESS), T_CHECK tells whether it may be set, T_CURRENT
    /// tells it as it is, and T_DEFAULT as the provider starts with it. A value that isn't allowed is T_FAILURE. The overall
    /// result is the worst, from good to bad: T_SUCCESS (32), T_PARTSUCCESS (256), T_FAILURE (64), T_READONLY (512),
    /// T_NOTSUPPORT (1024). The call may be made in every state, and doesn't wait.
    ///
    /// # Errors
    ///
    /// XTI ([`Fail`]) answers the first that holds; nothing has changed but after TBUFOVFLW:
    /// - TBADF: no endpoint is open with `fd`.
    /// - TBADFLAG: `action` is none of the four.
    /// - TBADOPT: `opt` has more than 256 bytes, or is no list of options, or has two levels.
    /// - TBUFOVFLW: the options that are answered are longer than `omax`, which isn't 0. The sizes are set all the same.
    pub fn t_optmgmt(
        &mut self,
        fd: Fd,
        action: u32,
        opt: &[u8],
        omax: u32,
    ) -> Result<(u32, Octets), Fail>
        ensures seat { GoesOn self.old self.new }
        ensures made { Negotiates fd action opt.now omax self.old self.new result }
    {
        let opt = made_or_fail!(self, Octets::copy_of(self.alloc, opt));
        negotiated(self.reply(Call::TOptMgmt {
            fd,
            action,
            opt,
            omax,
        }))
    }

    /// Sets an endpoint to O_NONBLOCK, or to blocking mode (fcntl in XNS).
    ///
    /// With O_NONBLOCK a call that would wait answers TNODATA, or TFLOW for a send, and a send may take only a part of its
    /// bytes. The mode counts from the next step on, also for a call by another seat that waits already: it then answers so,
    /// and a `t_snd` or `t_sndv` that has taken bytes answers how many. The call may be made in every state, changes the mode
    /// alone, and doesn't wait.
    ///
    /// # Errors
    ///
    /// XTI ([`Fail`]) answers TBADF alone: no endpoint is open with `fd`.
    pub fn set_mode(&mut self, fd: Fd, nonblock: bool) -> Result<(), Fail>
        ensures seat { GoesOn self.old self.new }
        ensures made { Makes (call.SetMode fd nonblock) IsDone self.old self.new result }
    {
        done(self.reply(Call::SetMode { fd, nonblock }))
    }
}
