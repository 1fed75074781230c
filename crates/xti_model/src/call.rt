//! The calls of XTI as plain data.

ghost use Rattle.std.specs.Prelude.{◌≡◌, IfOk, IsTrue, option_map};
ghost use Rattle.xti_model.specs.Families.{is_address_or_options, is_connection_request, is_connection_receipt, is_send, is_receive};
ghost use Rattle.xti_model.specs.Touched.{fd_of};

use crate::copying::{copy_three, copy_two};
use std::alloc::AllocError;
use xti_base::{Fd, Octets, Parts, Prov, Seq, Sizes, let_go};

/// A call (XNS, one variant a function). A limit of 0 for a returned field means that the caller doesn't take it.
#[derive(Debug, Drop)]
pub enum Call {
    /// t_open: an endpoint of the provider, with O_NONBLOCK or without.
    TOpen {
        prov: Prov,
        nonblock: bool,
    },
    /// t_close.
    TClose {
        fd: Fd,
    },
    /// t_bind: an address, empty for the provider's choice, a queue length, and the most bytes of address that the caller takes.
    TBind {
        fd: Fd,
        addr: Octets,
        qlen: u32,
        amax: u32,
    },
    /// t_unbind.
    TUnbind {
        fd: Fd,
    },
    /// t_connect: the address, options and data of the request, and the most bytes that the caller takes of each of the answer.
    TConnect {
        fd: Fd,
        addr: Octets,
        opt: Octets,
        udata: Octets,
        amax: u32,
        omax: u32,
        umax: u32,
    },
    /// t_rcvconnect.
    TRcvConnect {
        fd: Fd,
        amax: u32,
        omax: u32,
        umax: u32,
    },
    /// t_listen.
    TListen {
        fd: Fd,
        amax: u32,
        omax: u32,
        umax: u32,
    },
    /// t_accept: the listener, the accepting endpoint, the indication, options and data.
    TAccept {
        fd: Fd,
        resfd: Fd,
        seq: Seq,
        opt: Octets,
        udata: Octets,
    },
    /// t_snd, with the flags T_MORE 1 and T_EXPEDITED 2.
    TSnd {
        fd: Fd,
        bytes: Octets,
        flags: u32,
    },
    /// t_sndv: the parts are sent joined.
    TSndV {
        fd: Fd,
        parts: Parts,
        flags: u32,
    },
    /// t_rcv of at most `max` bytes.
    TRcv {
        fd: Fd,
        max: u32,
    },
    /// t_rcvv into buffers of these sizes.
    TRcvV {
        fd: Fd,
        sizes: Sizes,
    },
    /// t_snddis; the sequence number counts in T_INCON alone.
    TSndDis {
        fd: Fd,
        seq: Seq,
        udata: Octets,
    },
    /// t_rcvdis.
    TRcvDis {
        fd: Fd,
        umax: u32,
    },
    /// t_sndrel.
    TSndRel {
        fd: Fd,
    },
    /// t_rcvrel.
    TRcvRel {
        fd: Fd,
    },
    /// t_sndreldata: data that go with the release.
    TSndRelData {
        fd: Fd,
        udata: Octets,
    },
    /// t_rcvreldata.
    TRcvRelData {
        fd: Fd,
        umax: u32,
    },
    /// t_sndudata: destination, options and data of a datagram.
    TSndUData {
        fd: Fd,
        addr: Octets,
        opt: Octets,
        bytes: Octets,
    },
    /// t_sndvudata: the parts are sent joined.
    TSndVUData {
        fd: Fd,
        addr: Octets,
        opt: Octets,
        parts: Parts,
    },
    /// t_rcvudata of at most `max` bytes, and the most bytes of address and options that the caller takes.
    TRcvUData {
        fd: Fd,
        max: u32,
        amax: u32,
        omax: u32,
    },
    /// t_rcvvudata into buffers of these sizes.
    TRcvVUData {
        fd: Fd,
        sizes: Sizes,
        amax: u32,
        omax: u32,
    },
    /// t_rcvuderr.
    TRcvUDErr {
        fd: Fd,
        amax: u32,
        omax: u32,
    },
    /// t_look.
    TLookAt {
        fd: Fd,
    },
    /// t_getstate.
    TGetState {
        fd: Fd,
    },
    /// t_sync.
    TSync {
        fd: Fd,
    },
    /// t_getinfo.
    TGetInfo {
        fd: Fd,
    },
    /// t_getprotaddr, with the most bytes of each address that the caller takes.
    TGetProtAddr {
        fd: Fd,
        amax: u32,
        pmax: u32,
    },
    /// t_optmgmt: an action, and options in their encoded form.
    TOptMgmt {
        fd: Fd,
        action: u32,
        opt: Octets,
        omax: u32,
    },
    /// fcntl with or without O_NONBLOCK.
    SetMode {
        fd: Fd,
        nonblock: bool,
    },
}

// A call that names an address, asks for addresses or settles options, once more.
fn copy_address_or_options(call: &Call) -> Result<Call, AllocError>
    requires { IsTrue (is_address_or_options call.now) }
    ensures { IfOk result (λ copy. copy ≡ call.now) }
{
    match call {
        Call::TBind {
            fd,
            addr,
            qlen,
            amax,
        } => Ok(Call::TBind {
            fd: *fd,
            addr: made!(addr.copy()),
            qlen: *qlen,
            amax: *amax,
        }),
        Call::TGetProtAddr { fd, amax, pmax } => Ok(Call::TGetProtAddr {
            fd: *fd,
            amax: *amax,
            pmax: *pmax,
        }),
        Call::TOptMgmt {
            fd,
            action,
            opt,
            omax,
        } => Ok(Call::TOptMgmt {
            fd: *fd,
            action: *action,
            opt: made!(opt.copy()),
            omax: *omax,
        }),
        _ => unreachable!(),
    }
}

// A call that asks for a connection, takes one or ends one, once more.
fn copy_connection_request(call: &Call) -> Result<Call, AllocError>
    requires { IsTrue (is_connection_request call.now) }
    ensures { IfOk result (λ copy. copy ≡ call.now) }
{
    match call {
        Call::TConnect {
            fd,
            addr,
            opt,
            udata,
            amax,
            omax,
            umax,
        } => {
            let (addr, opt, udata) = made!(copy_three(addr, opt, udata));
            Ok(Call::TConnect {
                fd: *fd,
                addr,
                opt,
                udata,
                amax: *amax,
                omax: *omax,
                umax: *umax,
            })
        }
        Call::TAccept {
            fd,
            resfd,
            seq,
            opt,
            udata,
        } => {
            let (opt, udata) = made!(copy_two(opt, udata));
            Ok(Call::TAccept {
                fd: *fd,
                resfd: *resfd,
                seq: *seq,
                opt,
                udata,
            })
        }
        Call::TSndDis { fd, seq, udata } => Ok(Call::TSndDis {
            fd: *fd,
            seq: *seq,
            udata: made!(udata.copy()),
        }),
        Call::TSndRelData { fd, udata } => Ok(Call::TSndRelData {
            fd: *fd,
            udata: made!(udata.copy()),
        }),
        _ => unreachable!(),
    }
}

// A call that takes what the other side asked or answered about a connection, once more.
fn copy_connection_receipt(call: &Call) -> Result<Call, AllocError>
    requires { IsTrue (is_connection_receipt call.now) }
    ensures { IfOk result (λ copy. copy ≡ call.now) }
{
    match call {
        Call::TRcvConnect {
            fd,
            amax,
            omax,
            umax,
        } => Ok(Call::TRcvConnect {
            fd: *fd,
            amax: *amax,
            omax: *omax,
            umax: *umax,
        }),
        Call::TListen {
            fd,
            amax,
            omax,
            umax,
        } => Ok(Call::TListen {
            fd: *fd,
            amax: *amax,
            omax: *omax,
            umax: *umax,
        }),
        Call::TRcvDis { fd, umax } => Ok(Call::TRcvDis {
            fd: *fd,
            umax: *umax,
        }),
        Call::TRcvRelData { fd, umax } => Ok(Call::TRcvRelData {
            fd: *fd,
            umax: *umax,
        }),
        _ => unreachable!(),
    }
}

// A call that sends data or a datagram, once more.
fn copy_send(call: &Call) -> Result<Call, AllocError>
    requires { IsTrue (is_send call.now) }
    ensures { IfOk result (λ copy. copy ≡ call.now) }
{
    match call {
        Call::TSnd { fd, bytes, flags } => Ok(Call::TSnd {
            fd: *fd,
            bytes: made!(bytes.copy()),
            flags: *flags,
        }),
        Call::TSndV { fd, parts, flags } => Ok(Call::TSndV {
            fd: *fd,
            parts: made!(parts.copy()),
            flags: *flags,
        }),
        Call::TSndUData {
            fd,
            addr,
            opt,
            bytes,
        } => {
            let (addr, opt, bytes) = made!(copy_three(addr, opt, bytes));
            Ok(Call::TSndUData {
                fd: *fd,
                addr,
                opt,
                bytes,
            })
        }
        Call::TSndVUData {
            fd,
            addr,
            opt,
            parts,
        } => {
            let parts = made!(parts.copy());
            match copy_two(addr, opt) {
                Ok((addr, opt)) => Ok(Call::TSndVUData {
                    fd: *fd,
                    addr,
                    opt,
                    parts,
                }),
                Err(fail) => {
                    let_go(parts);
                    Err(fail)
                }
            }
        }
        _ => unreachable!(),
    }
}

// A call that takes data, a datagram or the error of a datagram, once more.
fn copy_receive(call: &Call) -> Result<Call, AllocError>
    requires { IsTrue (is_receive call.now) }
    ensures { IfOk result (λ copy. copy ≡ call.now) }
{
    match call {
        Call::TRcv { fd, max } => Ok(Call::TRcv { fd: *fd, max: *max }),
        Call::TRcvV { fd, sizes } => Ok(Call::TRcvV {
            fd: *fd,
            sizes: made!(sizes.copy()),
        }),
        Call::TRcvUData {
            fd,
            max,
            amax,
            omax,
        } => Ok(Call::TRcvUData {
            fd: *fd,
            max: *max,
            amax: *amax,
            omax: *omax,
        }),
        Call::TRcvVUData {
            fd,
            sizes,
            amax,
            omax,
        } => Ok(Call::TRcvVUData {
            fd: *fd,
            sizes: made!(sizes.copy()),
            amax: *amax,
            omax: *omax,
        }),
        Call::TRcvUDErr { fd, amax, omax } => Ok(Call::TRcvUDErr {
            fd: *fd,
            amax: *amax,
            omax: *omax,
        }),
        _ => unreachable!(),
    }
}

impl Call {
    /// The descriptor of the call, of an accept the listener's; a t_open alone has none. Takes no memory.
    #[inline(always)]
    pub fn fd(&self) -> Option<Fd>
        ensures { option_map (λ fd. fd.0) result ≡ fd_of self.now }
    {
        match self {
            Call::TOpen { .. } => None,
            Call::TClose { fd }
            | Call::TBind { fd, .. }
            | Call::TUnbind { fd }
            | Call::TConnect { fd, .. }
            | Call::TRcvConnect { fd, .. }
            | Call::TListen { fd, .. }
            | Call::TAccept { fd, .. }
            | Call::TSnd { fd, .. }
            | Call::TSndV { fd, .. }
            | Call::TRcv { fd, .. }
            | Call::TRcvV { fd, .. }
            | Call::TSndDis { fd, .. }
            | Call::TRcvDis { fd, .. }
            | Call::TSndRel { fd }
            | Call::TRcvRel { fd }
            | Call::TSndRelData { fd, .. }
            | Call::TRcvRelData { fd, .. }
            | Call::TSndUData { fd, .. }
            | Call::TSndVUData { fd, .. }
            | Call::TRcvUData { fd, .. }
            | Call::TRcvVUData { fd, .. }
            | Call::TRcvUDErr { fd, .. }
            | Call::TLookAt { fd }
            | Call::TGetState { fd }
            | Call::TSync { fd }
            | Call::TGetInfo { fd }
            | Call::TGetProtAddr { fd, .. }
            | Call::TOptMgmt { fd, .. }
            | Call::SetMode { fd, .. } => Some(*fd),
        }
    }

    /// The same call once more.
    pub fn copy(&self) -> Result<Call, AllocError>
        ensures { IfOk result (λ copy. copy ≡ self.now) }
    {
        match self {
            Call::TOpen { prov, nonblock } => Ok(Call::TOpen {
                prov: *prov,
                nonblock: *nonblock,
            }),
            Call::TClose { fd } => Ok(Call::TClose { fd: *fd }),
            Call::TUnbind { fd } => Ok(Call::TUnbind { fd: *fd }),
            Call::TSndRel { fd } => Ok(Call::TSndRel { fd: *fd }),
            Call::TRcvRel { fd } => Ok(Call::TRcvRel { fd: *fd }),
            Call::TLookAt { fd } => Ok(Call::TLookAt { fd: *fd }),
            Call::TGetState { fd } => Ok(Call::TGetState { fd: *fd }),
            Call::TSync { fd } => Ok(Call::TSync { fd: *fd }),
            Call::TGetInfo { fd } => Ok(Call::TGetInfo { fd: *fd }),
            Call::SetMode { fd, nonblock } => Ok(Call::SetMode {
                fd: *fd,
                nonblock: *nonblock,
            }),
            Call::TBind { .. } | Call::TGetProtAddr { .. } | Call::TOptMgmt { .. } =>
                copy_address_or_options(self),
            Call::TConnect { .. }
            | Call::TAccept { .. }
            | Call::TSndDis { .. }
            | Call::TSndRelData { .. } => copy_connection_request(self),
            Call::TRcvConnect { .. }
            | Call::TListen { .. }
            | Call::TRcvDis { .. }
            | Call::TRcvRelData { .. } => copy_connection_receipt(self),
            Call::TSnd { .. }
            | Call::TSndV { .. }
            | Call::TSndUData { .. }
            | Call::TSndVUData { .. } => copy_send(self),
            Call::TRcv { .. }
            | Call::TRcvV { .. }
            | Call::TRcvUData { .. }
            | Call::TRcvVUData { .. }
            | Call::TRcvUDErr { .. } => copy_receive(self),
        }
    }
}
