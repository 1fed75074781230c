//! Data of connections.

ghost use Rattle.std.specs.Prelude.{◌≡◌, ◌≤◌, length, IfOk, OnErr};
ghost use Rattle.xti_model.specs.declared.call.Call.TheVariants as call;
ghost use Rattle.xti_calls.specs.Forms.{Makes, ReceivesInto};
ghost use Rattle.xti_calls.specs.Typed.{AreGot, IsGot, IsSent};
ghost use Rattle.xti_calls.specs.Library.{GoesOn};

use crate::answers::{Fail, got, got_into, got_parts, sent};
use crate::buffers::{Buffers, MOST_OF_STREAM};
use crate::caller::Caller;
use std::sync::Wait;
use xti_base::{Fd, Octets, Parts, Sizes};
use xti_data::SendParts;
use xti_model::Call;

#[tactic(auto, using(crate::proofs::Replied::makes_told), unfolding(xti_verbs::specs::Verbs::row_of))]
impl<'a, R: Wait + Sync> Caller<'a, R> {
    /// Sends bytes on a connection, and answers how many were taken (XNS, t_snd).
    ///
    /// One call takes at most 65,536 bytes. `flags` is the sum of T_MORE (1) and T_EXPEDITED (2), or 0. With T_MORE the message
    /// goes on with the next send of the kind; without it, it ends after the last of `bytes`. An expedited message has at most
    /// 128 bytes, and a normal one at most `tsdu`. Where that is 0, normal data are a stream without ends: T_MORE says nothing,
    /// and there is no limit, as with T_INFINITE. A send of no bytes is allowed where the provider has T_SENDZERO.
    ///
    /// There is room where fewer normal bytes wait at the other end than this end's send size and that end's receive size
    /// together, and fewer than 256 ends of messages; for expedited data, fewer than 256 bytes and 16 ends. In blocking mode
    /// the call waits for the other end to receive, part by part, until all bytes are taken. Where a later part is refused, the
    /// call answers how many bytes were taken, in place of the error. With O_NONBLOCK it takes what there is room for, and
    /// answers how many bytes that is; where it isn't all, the message has no end yet.
    ///
    /// # Errors
    ///
    /// XTI ([`Fail`]) answers the first that holds; nothing has changed but after TFLOW:
    /// - TBADF: no endpoint is open with `fd`.
    /// - TNOTSUPPORT: the provider is `ticlts`.
    /// - TBADFLAG: `flags` is over 3.
    /// - TOUTSTATE: the state is neither T_DATAXFER nor T_INREL.
    /// - TBADDATA: there are more than 65,536 bytes; or none, without T_SENDZERO; or with what was sent of the message already
    ///   more than its limit.
    /// - TLOOK with T_DISCONNECT: a disconnect waits (`t_rcvdis`).
    /// - TLOOK with T_ORDREL: the other end has released, and all its data were received; `t_look` says how it is taken.
    /// - TFLOW, with O_NONBLOCK: there is no room. T_GODATA, or T_GOEXDATA for expedited data, then tells when there is.
    pub fn t_snd(&mut self, fd: Fd, bytes: &[u8], flags: u32) -> Result<u32, Fail>
        ensures seat { GoesOn self.old self.new }
        ensures made { Makes (call.TSnd fd bytes.now flags) IsSent self.old self.new result }
    {
        let bytes = made_or_fail!(self, Octets::copy_of(self.alloc, bytes));
        sent(self.reply(Call::TSnd { fd, bytes, flags }))
    }

    /// Sends parts, joined, on a connection, and answers how many bytes were taken (XNS, t_sndv).
    ///
    /// As `t_snd` with the bytes of all parts one after the other: what is sent doesn't show where a part ended. There are at
    /// most 16 parts, of at most 65,536 bytes together. It waits as `t_snd` does.
    ///
    /// # Errors
    ///
    /// XTI ([`Fail`]) answers those of `t_snd`, in their order. TBADDATA comes for more than 16 parts too.
    pub fn t_sndv(&mut self, fd: Fd, parts: &SendParts, flags: u32) -> Result<u32, Fail>
        ensures seat { GoesOn self.old self.new }
        ensures made { Makes (call.TSndV fd parts.now flags) IsSent self.old self.new result }
    {
        let parts = made_or_fail!(self, parts.parts().copy());
        sent(self.reply(Call::TSndV { fd, parts, flags }))
    }

    /// Receives at most `max` bytes of a connection, and answers them with flags (XNS, t_rcv).
    ///
    /// Expedited data come first where there are any, with T_EXPEDITED (2) in the flags. Bytes are taken up to an end of a
    /// message, and that end with them; T_MORE (1) in the flags says that none was taken. Normal data of a provider with `tsdu`
    /// 0 have no ends, and never T_MORE. After a receive of expedited data that took no end, no normal data come until the end
    /// was taken. With `max` over 0 an empty list is an end alone; with `max` 0 no bytes are taken, but an end that stands
    /// first is. At most 131,072 bytes come at once. In blocking mode the call waits for data, a release or a disconnect.
    ///
    /// # Errors
    ///
    /// XTI ([`Fail`]) answers the first that holds; nothing has changed then:
    /// - TBADF: no endpoint is open with `fd`.
    /// - TNOTSUPPORT: the provider is `ticlts`.
    /// - TOUTSTATE: the state is neither T_DATAXFER nor T_OUTREL.
    /// - TLOOK with T_DISCONNECT: a disconnect waits (`t_rcvdis`).
    /// - TLOOK with T_ORDREL: the other end has released, and all its data were received; `t_look` says how it is taken.
    /// - TNODATA, with O_NONBLOCK: no data wait that may be received.
    pub fn t_rcv(&mut self, fd: Fd, max: u32) -> Result<(Octets, u32), Fail>
        ensures seat { GoesOn self.old self.new }
        ensures made { Makes (call.TRcv fd max) IsGot self.old self.new result }
    {
        got(self.reply(Call::TRcv { fd, max }))
    }

    /// Receives bytes of a connection into the caller's own buffer, and answers how many, with flags (XNS, t_rcv).
    ///
    /// It is `t_rcv` with as many bytes as the buffer has, and no more than 131,072, as `max`. The bytes stand in it from
    /// its first on; those after them are as before, and all are where it fails. Of a message of no bytes, which is an end
    /// alone, the number is 0. No list is left to the caller. Up to 16 bytes of one send take no memory; that in which more stood
    /// before they were copied is kept for the next such receive of the caller, which takes none where that is large enough.
    ///
    /// # Errors
    ///
    /// XTI ([`Fail`]) answers those of `t_rcv`, in their order.
    #[tactic(auto, using(crate::proofs::Replied::makes_told, crate::proofs::Replied::got_fits), unfolding(xti_verbs::specs::Verbs::row_of))]
    pub fn t_rcv_into(&mut self, fd: Fd, buffer: &mut [u8]) -> Result<(u32, u32), Fail>
        ensures seat { GoesOn self.old self.new }
        ensures made { ReceivesInto fd buffer.old buffer.new self.old self.new result }
        ensures count { IfOk result (λ r. r.0 ≤ length buffer.new) }
        ensures err { OnErr result (buffer.new ≡ buffer.old) }
    {
        let max = buffer.len().min(MOST_OF_STREAM) as u32;
        let reply = self.reply(Call::TRcv { fd, max });
        got_into(reply, buffer, &mut self.seat)
    }

    /// Receives bytes of a connection in parts of at most these sizes, and answers them with flags (XNS, t_rcvv).
    ///
    /// As `t_rcv` with the sum of the sizes as `max`. There are at most 16 sizes. A part is answered for each, and each is
    /// filled before the next has a byte, so the parts after the last byte are empty. Their room is made before the call, so
    /// once bytes are received, memory can't run out. It waits as `t_rcv` does.
    ///
    /// # Errors
    ///
    /// XTI ([`Fail`]) answers those of `t_rcv`, in their order, and between TOUTSTATE and TLOOK:
    /// - TBADDATA: there are more than 16 sizes.
    #[tactic(auto, using(crate::proofs::Replied::makes_told, crate::proofs::Replied::got_fits), unfolding(xti_verbs::specs::Verbs::row_of))]
    pub fn t_rcvv(&mut self, fd: Fd, sizes: &Sizes) -> Result<(Parts, u32), Fail>
        ensures seat { GoesOn self.old self.new }
        ensures made { Makes (call.TRcvV fd sizes.now) (AreGot sizes.now) self.old self.new result }
    {
        let (buffers, sizes) = made_or_fail!(self, Buffers::new(self.alloc, sizes, MOST_OF_STREAM));
        got_parts(self.reply(Call::TRcvV { fd, sizes }), buffers)
    }
}
