//! Connections: to make them and to end them.

ghost use Rattle.std.specs.Prelude.{◌≡◌};
ghost use Rattle.xti_model.specs.declared.call.Call.TheVariants as call;
ghost use Rattle.xti_calls.specs.Forms.{Accepts, Confirms, Connects, Listens, Makes};
ghost use Rattle.xti_calls.specs.Typed.{IsDisconnect, IsDone, IsReleaseData};
ghost use Rattle.xti_calls.specs.Library.{GoesOn};

use crate::answers::{Fail, Max, TCall, connected, disconnected, done, listened, release_data};
use crate::caller::Caller;
use crate::forms::{three_copies, two_copies};
use std::sync::Wait;
use xti_base::{Fd, Octets, Seq};
use xti_model::Call;

#[tactic(auto, using(crate::proofs::Replied::makes_told), unfolding(xti_verbs::specs::Verbs::row_of))]
impl<'a, R: Wait + Sync> Caller<'a, R> {
    /// Asks the listener at an address for a connection, and in blocking mode waits for the answer (XNS, t_connect).
    ///
    /// `addr` is the listener's address at the endpoint's provider, of 1 to 64 bytes. `opt`, a list of options of at most 256
    /// bytes, and `udata`, at most 64 bytes, go to the listener. The request takes the endpoint from T_IDLE to T_OUTCON; the
    /// listener's accept comes as the answer: the accepting endpoint's address, and the options and data that it gave. Taking
    /// it leads to T_DATAXFER. `max` is what the caller takes of it. The wait ends with the answer or with a disconnect, which
    /// is there at once where nobody else listens at the address, or the listener is neither in T_IDLE nor in T_INCON (reason
    /// 1), and where it has as many unanswered requests as its queue length, or no sequence number left (reason 2).
    ///
    /// # Errors
    ///
    /// XTI ([`Fail`]) answers the first of these that holds; nothing has changed then:
    /// - TBADF: no endpoint is open with `fd`.
    /// - TNOTSUPPORT: the provider is `ticlts`.
    /// - TOUTSTATE: the state isn't T_IDLE.
    /// - TBADADDR: `addr` is empty, or has more than 64 bytes.
    /// - TBADOPT: `opt` has more than 256 bytes, or is no list of options.
    /// - TBADDATA: `udata` has more than 64 bytes.
    /// - TLOOK with T_LISTEN: a request waits at the endpoint itself. (T_DISCONNECT, looked at first, is never there in
    ///   T_IDLE.)
    ///
    /// Where none holds the request is made. With O_NONBLOCK the call then answers TNODATA, and `t_rcvconnect` takes the
    /// listener's answer. In blocking mode these may follow, again the first that holds:
    /// - TBADF: another seat has closed the endpoint.
    /// - TOUTSTATE: the state isn't T_OUTCON any more, by the call of another seat.
    /// - TLOOK with T_DISCONNECT: there is no connection. `t_rcvdis` tells why, and leads back to T_IDLE.
    /// - TNODATA: the endpoint was set to O_NONBLOCK meanwhile, and there is no answer yet.
    /// - TBUFOVFLW: a field of the answer is longer than `max` says. The endpoint is in T_DATAXFER all the same.
    pub fn t_connect(
        &mut self,
        fd: Fd,
        addr: &[u8],
        opt: &[u8],
        udata: &[u8],
        max: Max,
    ) -> Result<TCall, Fail>
        ensures seat { GoesOn self.old self.new }
        ensures made { Connects fd addr.now opt.now udata.now max self.old self.new result }
    {
        let (addr, opt, udata) = made_or_fail!(self, three_copies(self.alloc, addr, opt, udata));
        connected(self.reply(Call::TConnect {
            fd,
            addr,
            opt,
            udata,
            amax: max.addr,
            omax: max.opt,
            umax: max.udata,
        }))
    }

    /// Takes the answer to a request that `t_connect` made with O_NONBLOCK (XNS, t_rcvconnect).
    ///
    /// The endpoint goes from T_OUTCON to T_DATAXFER. The answer has the accepting endpoint's address, and the options and data
    /// of the listener's `t_accept`; `max` is what the caller takes of them. In blocking mode it waits for the answer, or for a
    /// disconnect.
    ///
    /// # Errors
    ///
    /// XTI ([`Fail`]) answers the first that holds; nothing has changed but after TBUFOVFLW:
    /// - TBADF: no endpoint is open with `fd`.
    /// - TNOTSUPPORT: the provider is `ticlts`.
    /// - TOUTSTATE: the state isn't T_OUTCON.
    /// - TLOOK with T_DISCONNECT: there is no connection. `t_rcvdis` tells why.
    /// - TNODATA, with O_NONBLOCK: there is no answer yet.
    /// - TBUFOVFLW: a field is longer than `max` says. The endpoint is in T_DATAXFER all the same.
    pub fn t_rcvconnect(&mut self, fd: Fd, max: Max) -> Result<TCall, Fail>
        ensures seat { GoesOn self.old self.new }
        ensures made { Confirms fd max self.old self.new result }
    {
        connected(self.reply(Call::TRcvConnect {
            fd,
            amax: max.addr,
            omax: max.opt,
            umax: max.udata,
        }))
    }

    /// Takes the oldest request to connect (connect indication) that waits at a listener (XNS, t_listen).
    ///
    /// A listener is an endpoint with a queue length over 0. What is answered: the request's sequence number, by which
    /// `t_accept` and `t_snddis` name it, the caller's address, and the options and data of its `t_connect`. `max` is what is
    /// taken of these. The endpoint is then in T_INCON. In blocking mode the call waits for a request, or for a disconnect.
    ///
    /// # Errors
    ///
    /// XTI ([`Fail`]) answers the first that holds; nothing has changed but after TBUFOVFLW:
    /// - TBADF: no endpoint is open with `fd`.
    /// - TNOTSUPPORT: the provider is `ticlts`.
    /// - TOUTSTATE: the state is neither T_IDLE nor T_INCON.
    /// - TBADQLEN: the endpoint's queue length is 0.
    /// - TQFULL: as many requests as the queue length were taken and not answered.
    /// - TLOOK with T_DISCONNECT: a caller has given up a request that was taken and not answered (`t_rcvdis`).
    /// - TNODATA, with O_NONBLOCK: no request waits.
    /// - TBUFOVFLW: a field is longer than `max` says. The request is taken all the same; `Fail::Overflow` has its number.
    pub fn t_listen(&mut self, fd: Fd, max: Max) -> Result<TCall, Fail>
        ensures seat { GoesOn self.old self.new }
        ensures made { Listens fd max self.old self.new result }
    {
        listened(self.reply(Call::TListen {
            fd,
            amax: max.addr,
            omax: max.opt,
            umax: max.udata,
        }))
    }

    /// Accepts a request that `t_listen` took, so that an endpoint is connected with its caller (XNS, t_accept).
    ///
    /// `fd` is the listener, and `seq` the request's sequence number. `resfd` gets the connection, and is then in T_DATAXFER.
    /// It is `fd` itself, or an endpoint of the same provider in T_IDLE, or one in T_UNBND, which is bound to the listener's
    /// address with queue length 0. Where it is another, `fd` is then in T_IDLE if it has no taken request left, and else still
    /// in T_INCON. `opt`, a list of options of at most 256 bytes, and `udata`, at most 64 bytes, go to the caller, which stays
    /// in T_OUTCON until it takes the answer. The call doesn't wait.
    ///
    /// # Errors
    ///
    /// XTI ([`Fail`]) answers the first that holds; nothing has changed then:
    /// - TBADF: no endpoint is open with `fd`, or none with `resfd`.
    /// - TNOTSUPPORT: the provider of `fd` is `ticlts`.
    /// - TOUTSTATE: `fd` isn't in T_INCON.
    /// - TPROVMISMATCH: the two are of different providers.
    /// - TOUTSTATE: `resfd` is another endpoint, and neither in T_UNBND nor in T_IDLE.
    /// - TBADSEQ: `seq` is the number of no request that `fd` has taken and not answered.
    /// - TINDOUT: `resfd` is `fd`, which has more than one such request.
    /// - TRESQLEN: `resfd` is another endpoint, and has a queue length over 0.
    /// - TRESADDR: the provider has `same_addr`, and `resfd` is bound to another address than `fd`.
    /// - TBADOPT: `opt` has more than 256 bytes, or is no list of options.
    /// - TBADDATA: `udata` has more than 64 bytes.
    /// - TLOOK with T_DISCONNECT: a caller has given up a request that `fd` has taken and not answered (`t_rcvdis`).
    /// - TLOOK with T_LISTEN: a further request waits at `fd` (`t_listen`).
    pub fn t_accept(
        &mut self,
        fd: Fd,
        resfd: Fd,
        seq: Seq,
        opt: &[u8],
        udata: &[u8],
    ) -> Result<(), Fail>
        ensures seat { GoesOn self.old self.new }
        ensures made { Accepts fd resfd seq opt.now udata.now self.old self.new result }
    {
        let (opt, udata) = made_or_fail!(self, two_copies(self.alloc, opt, udata));
        done(self.reply(Call::TAccept {
            fd,
            resfd,
            seq,
            opt,
            udata,
        }))
    }

    /// Rejects a request, gives up one of its own, or ends a connection at once (XNS, t_snddis).
    ///
    /// In T_INCON it rejects the request `seq` that `t_listen` took: its caller gets a disconnect with reason 3 and `udata`,
    /// and the endpoint is in T_IDLE where it has no taken request left. In the other states `seq` doesn't count, and the
    /// endpoint is then in T_IDLE, without what waited there. The other end, where it still has the connection, loses what it
    /// hasn't received, and gets a disconnect with reason 4 and `udata`. In T_OUTCON a request that isn't answered is taken
    /// back: where the listener has taken it, the listener gets that disconnect with the request's number, and else the request
    /// is gone. `udata` has at most 64 bytes. The call doesn't wait.
    ///
    /// # Errors
    ///
    /// XTI ([`Fail`]) answers the first that holds; nothing has changed then:
    /// - TBADF: no endpoint is open with `fd`.
    /// - TNOTSUPPORT: the provider is `ticlts`.
    /// - TOUTSTATE: the state is none of T_OUTCON, T_INCON, T_DATAXFER, T_OUTREL and T_INREL.
    /// - TBADSEQ: the state is T_INCON, and `seq` is the number of no request that was taken and not answered.
    /// - TBADDATA: `udata` has more than 64 bytes.
    /// - TLOOK with T_DISCONNECT: a disconnect waits (`t_rcvdis`).
    pub fn t_snddis(&mut self, fd: Fd, seq: Seq, udata: &[u8]) -> Result<(), Fail>
        ensures seat { GoesOn self.old self.new }
        ensures made { Makes (call.TSndDis fd seq udata.now) IsDone self.old self.new result }
    {
        let udata = made_or_fail!(self, Octets::copy_of(self.alloc, udata));
        done(self.reply(Call::TSndDis { fd, seq, udata }))
    }

    /// Takes the oldest disconnect that waits, and answers its reason, sequence number and data (XNS, t_rcvdis).
    ///
    /// Reasons (`reasons` of `xti_base`): 1, nobody listens at the address; 2, the listener's queue is full, or its sequence
    /// numbers are used up; 3, the request was rejected; 4, the other side has disconnected; 5, it has closed its endpoint. In
    /// T_INCON the sequence number is that of the request, taken and not answered, that its caller has given up: the request is
    /// gone, and the endpoint is in T_IDLE where it has no taken request left. In the other states the number is 0, and the
    /// endpoint is then in T_IDLE, with nothing left of the connection. The data are those of `t_snddis`, or empty; `umax` is
    /// how many bytes of them the caller takes at most, and with 0 none are answered. It never waits: `t_listen`,
    /// `t_rcvconnect` and `t_rcv` do, and then answer TLOOK with T_DISCONNECT.
    ///
    /// # Errors
    ///
    /// XTI ([`Fail`]) answers the first that holds; nothing has changed but after TBUFOVFLW:
    /// - TBADF: no endpoint is open with `fd`.
    /// - TNOTSUPPORT: the provider is `ticlts`.
    /// - TOUTSTATE: the state is none of T_OUTCON, T_INCON, T_DATAXFER, T_OUTREL and T_INREL.
    /// - TNODIS: no disconnect waits.
    /// - TBUFOVFLW: the data are longer than `umax`, which isn't 0. The disconnect is taken all the same, and isn't told.
    pub fn t_rcvdis(&mut self, fd: Fd, umax: u32) -> Result<(u32, Seq, Octets), Fail>
        ensures seat { GoesOn self.old self.new }
        ensures made { Makes (call.TRcvDis fd umax) IsDisconnect self.old self.new result }
    {
        disconnected(self.reply(Call::TRcvDis { fd, umax }))
    }

    /// Releases a connection in one direction: no more data will be sent (XNS, t_sndrel).
    ///
    /// The other end is told T_ORDREL, once it has received all that was sent, and takes it by `t_rcvrel`. The endpoint goes
    /// from T_DATAXFER to T_OUTREL, in which it may still receive. From T_INREL, where the other end has released too, it goes
    /// to T_IDLE, and has no connection any more. The call doesn't wait.
    ///
    /// # Errors
    ///
    /// XTI ([`Fail`]) answers the first that holds; nothing has changed then:
    /// - TBADF: no endpoint is open with `fd`.
    /// - TNOTSUPPORT: the provider isn't `ticotsord`.
    /// - TOUTSTATE: the state is neither T_DATAXFER nor T_INREL.
    /// - TLOOK with T_DISCONNECT: a disconnect waits (`t_rcvdis`).
    pub fn t_sndrel(&mut self, fd: Fd) -> Result<(), Fail>
        ensures seat { GoesOn self.old self.new }
        ensures made { Makes (call.TSndRel fd) IsDone self.old self.new result }
    {
        done(self.reply(Call::TSndRel { fd }))
    }

    /// Takes the other end's release of a connection, after which no more data come (XNS, t_rcvrel).
    ///
    /// The endpoint goes from T_DATAXFER to T_INREL, in which it may still send. From T_OUTREL, where it has released too, it
    /// goes to T_IDLE, and has no connection any more. The call never waits: `t_rcv` does, and then answers TLOOK with
    /// T_ORDREL.
    ///
    /// # Errors
    ///
    /// XTI ([`Fail`]) answers the first that holds; nothing has changed then:
    /// - TBADF: no endpoint is open with `fd`.
    /// - TNOTSUPPORT: the provider isn't `ticotsord`.
    /// - TOUTSTATE: the state is neither T_DATAXFER nor T_OUTREL.
    /// - TLOOK with T_DISCONNECT: a disconnect waits (`t_rcvdis`).
    /// - TNOREL: the other end hasn't released, or not all its data were received.
    pub fn t_rcvrel(&mut self, fd: Fd) -> Result<(), Fail>
        ensures seat { GoesOn self.old self.new }
        ensures made { Makes (call.TRcvRel fd) IsDone self.old self.new result }
    {
        done(self.reply(Call::TRcvRel { fd }))
    }

    /// Releases a connection in one direction, with data (XNS, t_sndreldata; XNS's `reason` isn't carried).
    ///
    /// It is `t_sndrel`, but that `udata` go with the release; the other end takes them by `t_rcvreldata`, while `t_rcvrel`
    /// drops them. `udata` are at most 64 bytes where the provider has T_ORDRELDATA among the flags of `t_getinfo`, and else
    /// none. The call doesn't wait.
    ///
    /// # Errors
    ///
    /// XTI ([`Fail`]) answers the first that holds; nothing has changed then:
    /// - TBADF: no endpoint is open with `fd`.
    /// - TNOTSUPPORT: the provider isn't `ticotsord`.
    /// - TOUTSTATE: the state is neither T_DATAXFER nor T_INREL.
    /// - TBADDATA: `udata` are more than 64 bytes, or any without T_ORDRELDATA.
    /// - TLOOK with T_DISCONNECT: a disconnect waits (`t_rcvdis`).
    pub fn t_sndreldata(&mut self, fd: Fd, udata: &[u8]) -> Result<(), Fail>
        ensures seat { GoesOn self.old self.new }
        ensures made { Makes (call.TSndRelData fd udata.now) IsDone self.old self.new result }
    {
        let udata = made_or_fail!(self, Octets::copy_of(self.alloc, udata));
        done(self.reply(Call::TSndRelData { fd, udata }))
    }

    /// Takes the other end's release of a connection, and answers the data that go with it (XNS, t_rcvreldata).
    ///
    /// It is `t_rcvrel`, but that the data are answered: at most 64 bytes, and none where the other end released by `t_sndrel`
    /// or without data. `umax` is how many of them the caller takes at most, and with 0 none are answered. The call never
    /// waits.
    ///
    /// # Errors
    ///
    /// XTI ([`Fail`]) answers the first that holds; nothing has changed but after TBUFOVFLW:
    /// - TBADF: no endpoint is open with `fd`.
    /// - TNOTSUPPORT: the provider isn't `ticotsord`.
    /// - TOUTSTATE: the state is neither T_DATAXFER nor T_OUTREL.
    /// - TLOOK with T_DISCONNECT: a disconnect waits (`t_rcvdis`).
    /// - TNOREL: the other end hasn't released, or not all its data were received.
    /// - TBUFOVFLW: the data are longer than `umax`, which isn't 0. The release is taken all the same, and its data are lost.
    pub fn t_rcvreldata(&mut self, fd: Fd, umax: u32) -> Result<Octets, Fail>
        ensures seat { GoesOn self.old self.new }
        ensures made { Makes (call.TRcvRelData fd umax) IsReleaseData self.old self.new result }
    {
        release_data(self.reply(Call::TRcvRelData { fd, umax }))
    }
}
