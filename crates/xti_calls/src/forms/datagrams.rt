//! Datagrams.

ghost use Rattle.std.specs.Prelude.{◌≡◌, IfOk};
ghost use Rattle.xti_calls.specs.Forms.{ReceivesDatagram, ReceivesDatagramInParts, SendsDatagram, SendsDatagramInParts, TakesDatagramError};
ghost use Rattle.xti_calls.specs.Library.{GoesOn};

use crate::answers::{Fail, Max, TCall, datagram, datagram_error, datagram_parts, done};
use crate::buffers::{Buffers, MOST_OF_DATAGRAM};
use crate::caller::Caller;
use crate::forms::{three_copies, two_copies};
use std::alloc::{AllocError, Global};
use std::sync::Wait;
use xti_base::{Fd, Octets, Parts, Sizes, or_drop};
use xti_data::SendParts;
use xti_model::Call;

/// A copy of the address, of the options and of the parts.
fn copies_and_parts(
    alloc: Global,
    addr: &[u8],
    opt: &[u8],
    parts: &SendParts,
) -> Result<(Octets, Octets, Parts), AllocError>
    ensures { IfOk result (λ r. (r.0 ≡ addr.now) × (r.1 ≡ opt.now) × (r.2 ≡ parts.now)) }
{
    let (addr, opt) = two_copies(alloc, addr, opt)?;
    let parts = or_drop!(parts.parts().copy(), addr, opt);
    Ok((addr, opt, parts))
}

#[tactic(auto, using(crate::proofs::Replied::makes_told), unfolding(xti_verbs::specs::Verbs::row_of))]
impl<'a, R: Wait + Sync> Caller<'a, R> {
    /// Sends a datagram to an address (XNS, t_sndudata).
    ///
    /// `addr` is the destination, of 1 to 64 bytes; it may be the endpoint's own. `opt` is a list of options of at most 256
    /// bytes. `bytes` are at most as many as the provider's `tsdu`, 8,192 by default, and may be none where it has T_SENDZERO.
    /// The endpoint that is bound to `addr` gets the datagram whole, with this endpoint's address as its source. Where nobody
    /// is bound there, the call is done too, and an error with code 1 then waits at this endpoint for `t_rcvuderr`. In blocking
    /// mode the call waits while 16 datagrams wait at the destination.
    ///
    /// # Errors
    ///
    /// XTI ([`Fail`]) answers the first that holds; nothing has changed but after TFLOW:
    /// - TBADF: no endpoint is open with `fd`.
    /// - TNOTSUPPORT: the provider isn't `ticlts`.
    /// - TOUTSTATE: the state isn't T_IDLE.
    /// - TBADADDR: `addr` is empty, or has more than 64 bytes.
    /// - TBADOPT: `opt` has more than 256 bytes, or is no list of options.
    /// - TBADDATA: `bytes` are more than `tsdu`, or none without T_SENDZERO.
    /// - TLOOK with T_UDERR: the error of a datagram waits (`t_rcvuderr`).
    /// - TFLOW, with O_NONBLOCK: 16 datagrams wait at the destination. T_GODATA then tells when one more may be sent there.
    pub fn t_sndudata(&mut self, fd: Fd, addr: &[u8], opt: &[u8], bytes: &[u8]) -> Result<(), Fail>
        ensures seat { GoesOn self.old self.new }
        ensures made { SendsDatagram fd addr.now opt.now bytes.now self.old self.new result }
    {
        let (addr, opt, bytes) = made_or_fail!(self, three_copies(self.alloc, addr, opt, bytes));
        done(self.reply(Call::TSndUData {
            fd,
            addr,
            opt,
            bytes,
        }))
    }

    /// Sends parts, joined, as one datagram to an address (XNS, t_sndvudata).
    ///
    /// As `t_sndudata` with the bytes of all parts one after the other: the receiver doesn't see where a part ended. There are
    /// at most 16 parts, together at most as long as the provider's `tsdu`. It waits as `t_sndudata` does.
    ///
    /// # Errors
    ///
    /// XTI ([`Fail`]) answers those of `t_sndudata`, in their order. TBADDATA comes for more than 16 parts too.
    pub fn t_sndvudata(
        &mut self,
        fd: Fd,
        addr: &[u8],
        opt: &[u8],
        parts: &SendParts,
    ) -> Result<(), Fail>
        ensures seat { GoesOn self.old self.new }
        ensures made { SendsDatagramInParts fd addr.now opt.now parts.now self.old self.new result }
    {
        let (addr, opt, parts) = made_or_fail!(
            self,
            copies_and_parts(self.alloc, addr, opt, parts)
        );
        done(self.reply(Call::TSndVUData {
            fd,
            addr,
            opt,
            parts,
        }))
    }

    /// Receives the first datagram that waits, or a part of it, and answers it with flags (XNS, t_rcvudata).
    ///
    /// At most `max.udata` bytes are taken. Where bytes are left the flags are T_MORE (1), and the next receive goes on with
    /// them; else they are 0. The sender's address and the options come with the first part alone, and are empty with the
    /// others. With `max.udata` 0 a datagram loses no bytes, but this is its first part; one without bytes is gone. `max.addr`
    /// and `max.opt` are what the caller takes of the address and the options. In blocking mode the call waits for a datagram,
    /// or for the error of one.
    ///
    /// # Errors
    ///
    /// XTI ([`Fail`]) answers the first that holds; nothing has changed but after TBUFOVFLW:
    /// - TBADF: no endpoint is open with `fd`.
    /// - TNOTSUPPORT: the provider isn't `ticlts`.
    /// - TOUTSTATE: the state isn't T_IDLE.
    /// - TLOOK with T_UDERR: the error of a datagram waits (`t_rcvuderr`).
    /// - TNODATA, with O_NONBLOCK: no datagram waits.
    /// - TBUFOVFLW: the address or the options are longer than `max` says. The whole datagram is gone. A later part never has
    ///   this error, and more bytes than `max.udata` are none.
    pub fn t_rcvudata(&mut self, fd: Fd, max: Max) -> Result<(TCall, u32), Fail>
        ensures seat { GoesOn self.old self.new }
        ensures made { ReceivesDatagram fd max self.old self.new result }
    {
        datagram(self.reply(Call::TRcvUData {
            fd,
            max: max.udata,
            amax: max.addr,
            omax: max.opt,
        }))
    }

    /// Receives a datagram or a part of it in parts of at most these sizes, and answers it with flags (XNS, t_rcvvudata).
    ///
    /// As `t_rcvudata` with the sum of the sizes as `max.udata`, and `amax` and `omax` as `max.addr` and `max.opt`. There are
    /// at most 16 sizes. A part is answered for each, and each is filled before the next has a byte, so the parts after the
    /// last byte are empty; `udata` of the `TCall` is always empty. Their room is made before the call, so once bytes are
    /// received, memory can't run out. It waits as `t_rcvudata` does.
    ///
    /// # Errors
    ///
    /// XTI ([`Fail`]) answers those of `t_rcvudata`, in their order, and between TOUTSTATE and TLOOK:
    /// - TBADDATA: there are more than 16 sizes.
    #[tactic(auto, using(crate::proofs::Replied::makes_told, crate::proofs::Replied::datagram_fits), unfolding(xti_verbs::specs::Verbs::row_of))]
    pub fn t_rcvvudata(
        &mut self,
        fd: Fd,
        sizes: &Sizes,
        amax: u32,
        omax: u32,
    ) -> Result<(TCall, Parts, u32), Fail>
        ensures seat { GoesOn self.old self.new }
        ensures made { ReceivesDatagramInParts fd sizes.now amax omax self.old self.new result }
    {
        let (buffers, sizes) = made_or_fail!(
            self,
            Buffers::new(self.alloc, sizes, MOST_OF_DATAGRAM)
        );
        let reply = self.reply(Call::TRcvVUData {
            fd,
            sizes,
            amax,
            omax,
        });
        datagram_parts(self.alloc, reply, buffers)
    }

    /// Takes the first error of a datagram that waits, and answers destination, options and code (XNS, t_rcvuderr).
    ///
    /// They are those of a datagram that this endpoint sent while nobody was bound to its destination, which code 1 says; there
    /// is no other code. `amax` and `omax` are how many bytes of the destination and of the options the caller takes at most;
    /// with 0 that field is answered as empty. The call never waits: `t_rcvudata` does, and then answers TLOOK with T_UDERR.
    ///
    /// # Errors
    ///
    /// XTI ([`Fail`]) answers the first that holds; nothing has changed but after TBUFOVFLW:
    /// - TBADF: no endpoint is open with `fd`.
    /// - TNOTSUPPORT: the provider isn't `ticlts`.
    /// - TOUTSTATE: the state isn't T_IDLE.
    /// - TNOUDERR: no such error waits.
    /// - TBUFOVFLW: the destination is longer than `amax`, which isn't 0, or the options than `omax`, which isn't 0. The error
    ///   is taken all the same, and isn't told.
    pub fn t_rcvuderr(
        &mut self,
        fd: Fd,
        amax: u32,
        omax: u32,
    ) -> Result<(Octets, Octets, u32), Fail>
        ensures seat { GoesOn self.old self.new }
        ensures made { TakesDatagramError fd amax omax self.old self.new result }
    {
        datagram_error(self.reply(Call::TRcvUDErr { fd, amax, omax }))
    }
}
