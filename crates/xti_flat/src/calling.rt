//! The call that is asked for.

ghost use Rattle.std.specs.Prelude.{◌≡◌, true, IfOk, IsOk};
ghost use Rattle.xti_verbs.specs.declared.verb.Verb.TheVariants.{Connect, Accept, SndUData};
ghost use Rattle.xti_verbs.specs.Verbs.{verb_of};
ghost use Rattle.xti_verbs.specs.Families.{is_local, is_connecting, is_data, is_datagram};
ghost use Rattle.xti_flat.specs.Calls.{prov_of, parts_of, HasArguments, IsCallOf, CopiesNone, CopiesTakeNone, go_of};

use crate::asked::Asked;
use crate::bytes::Bytes;
use std::alloc::{AllocError, Global};
use xti_base::{Fd, Octets, Parts, Prov, Seq, Sizes};
use xti_model::{Call, Go};
use xti_verbs::Verb;

/// How far the call has come.
pub fn go_of(asked: &Asked) -> Go
    ensures { result ≡ go_of asked.now }
{
    if asked.more == 0 {
        Go::Begin
    } else {
        Go::More(asked.taken)
    }
}

/// The provider with this number; every other number names none.
fn prov_of(number: u32) -> Prov
    ensures { result ≡ prov_of number }
{
    match number {
        0 => Prov::Ticots,
        1 => Prov::Ticotsord,
        2 => Prov::Ticlts,
        _ => Prov::Other,
    }
}

/// The sizes as a list.
fn sizes_of(alloc: Global, sizes: &[u32]) -> Result<Sizes, AllocError>
    ensures { IfOk result (λ s. s ≡ sizes.now) }
{
    Ok(Sizes::from_vec(Vec::from_slice(alloc, sizes)?))
}

/// The data cut into parts of these sizes, as far as they reach.
fn parts_of(alloc: Global, bytes: &[u8], sizes: &[u32]) -> Result<Parts, AllocError>
    ensures { IfOk result (λ parts. parts ≡ parts_of bytes.now sizes.now) }
{
    let mut parts = Vec::new(alloc);
    let mut rest = bytes;
    for size in sizes {
        let (front, back) = rest.split_at((*size as usize).min(rest.len()));
        parts.push(Octets::copy_of(alloc, front)?)?;
        rest = back;
    }
    Ok(Parts::from_vec(parts))
}

/// A call that opens an endpoint, or sets or asks what belongs to it.
fn local_call(alloc: Global, verb: Verb, asked: &Asked, bytes: &Bytes) -> Result<Call, AllocError>
    requires { is_local verb ≡ true }
    ensures call { IfOk result (λ c. verb_of c ≡ verb × HasArguments c asked.now bytes.now) }
    ensures sure { CopiesNone verb bytes.now → IsOk result }
{
    let fd = Fd(asked.fd);
    Ok(match verb {
        Verb::Open => Call::TOpen {
            prov: prov_of(asked.fd),
            nonblock: asked.number != 0,
        },
        Verb::Bind => Call::TBind {
            fd,
            addr: Octets::copy_of(alloc, bytes.addr)?,
            qlen: asked.number,
            amax: asked.amax,
        },
        Verb::GetProtAddr => Call::TGetProtAddr {
            fd,
            amax: asked.amax,
            pmax: asked.umax,
        },
        Verb::OptMgmt => Call::TOptMgmt {
            fd,
            action: asked.number,
            opt: Octets::copy_of(alloc, bytes.opt)?,
            omax: asked.omax,
        },
        Verb::SetMode => Call::SetMode {
            fd,
            nonblock: asked.number != 0,
        },
        _ => unreachable!(),
    })
}

/// The call that asks for a connection.
fn connect_call(alloc: Global, asked: &Asked, bytes: &Bytes) -> Result<Call, AllocError>
    ensures call { IfOk result (λ c. verb_of c ≡ Connect × HasArguments c asked.now bytes.now) }
    ensures sure { CopiesNone Connect bytes.now → IsOk result }
{
    Ok(Call::TConnect {
        fd: Fd(asked.fd),
        addr: Octets::copy_of(alloc, bytes.addr)?,
        opt: Octets::copy_of(alloc, bytes.opt)?,
        udata: Octets::copy_of(alloc, bytes.udata)?,
        amax: asked.amax,
        omax: asked.omax,
        umax: asked.umax,
    })
}

/// The call that accepts one.
fn accept_call(alloc: Global, asked: &Asked, bytes: &Bytes) -> Result<Call, AllocError>
    ensures call { IfOk result (λ c. verb_of c ≡ Accept × HasArguments c asked.now bytes.now) }
    ensures sure { CopiesNone Accept bytes.now → IsOk result }
{
    Ok(Call::TAccept {
        fd: Fd(asked.fd),
        resfd: Fd(asked.resfd),
        seq: Seq(asked.seq),
        opt: Octets::copy_of(alloc, bytes.opt)?,
        udata: Octets::copy_of(alloc, bytes.udata)?,
    })
}

/// A call that makes a connection, breaks it or sends data with its release.
fn connecting_call(
    alloc: Global,
    verb: Verb,
    asked: &Asked,
    bytes: &Bytes,
) -> Result<Call, AllocError>
    requires { is_connecting verb ≡ true }
    ensures call { IfOk result (λ c. verb_of c ≡ verb × HasArguments c asked.now bytes.now) }
    ensures sure { CopiesNone verb bytes.now → IsOk result }
{
    let fd = Fd(asked.fd);
    Ok(match verb {
        Verb::Connect => connect_call(alloc, asked, bytes)?,
        Verb::RcvConnect => Call::TRcvConnect {
            fd,
            amax: asked.amax,
            omax: asked.omax,
            umax: asked.umax,
        },
        Verb::Listen => Call::TListen {
            fd,
            amax: asked.amax,
            omax: asked.omax,
            umax: asked.umax,
        },
        Verb::Accept => accept_call(alloc, asked, bytes)?,
        Verb::SndDis => Call::TSndDis {
            fd,
            seq: Seq(asked.seq),
            udata: Octets::copy_of(alloc, bytes.udata)?,
        },
        Verb::RcvDis => Call::TRcvDis {
            fd,
            umax: asked.umax,
        },
        Verb::SndRelData => Call::TSndRelData {
            fd,
            udata: Octets::copy_of(alloc, bytes.udata)?,
        },
        Verb::RcvRelData => Call::TRcvRelData {
            fd,
            umax: asked.umax,
        },
        _ => unreachable!(),
    })
}

/// A call that sends or receives on a connection.
fn data_call(alloc: Global, verb: Verb, asked: &Asked, bytes: &Bytes) -> Result<Call, AllocError>
    requires { is_data verb ≡ true }
    ensures call { IfOk result (λ c. verb_of c ≡ verb × HasArguments c asked.now bytes.now) }
    ensures sure { CopiesNone verb bytes.now → IsOk result }
{
    let fd = Fd(asked.fd);
    Ok(match verb {
        Verb::Snd => Call::TSnd {
            fd,
            bytes: Octets::copy_of(alloc, bytes.udata)?,
            flags: asked.number,
        },
        Verb::SndV => Call::TSndV {
            fd,
            parts: parts_of(alloc, bytes.udata, bytes.sizes)?,
            flags: asked.number,
        },
        Verb::Rcv => Call::TRcv {
            fd,
            max: asked.number,
        },
        Verb::RcvV => Call::TRcvV {
            fd,
            sizes: sizes_of(alloc, bytes.sizes)?,
        },
        _ => unreachable!(),
    })
}

/// The call that sends a datagram of one part.
fn send_datagram_call(alloc: Global, asked: &Asked, bytes: &Bytes) -> Result<Call, AllocError>
    ensures call { IfOk result (λ c. verb_of c ≡ SndUData × HasArguments c asked.now bytes.now) }
    ensures sure { CopiesNone SndUData bytes.now → IsOk result }
{
    Ok(Call::TSndUData {
        fd: Fd(asked.fd),
        addr: Octets::copy_of(alloc, bytes.addr)?,
        opt: Octets::copy_of(alloc, bytes.opt)?,
        bytes: Octets::copy_of(alloc, bytes.udata)?,
    })
}

/// A call that sends or receives a datagram, or the error of one.
fn datagram_call(
    alloc: Global,
    verb: Verb,
    asked: &Asked,
    bytes: &Bytes,
) -> Result<Call, AllocError>
    requires { is_datagram verb ≡ true }
    ensures call { IfOk result (λ c. verb_of c ≡ verb × HasArguments c asked.now bytes.now) }
    ensures sure { CopiesNone verb bytes.now → IsOk result }
{
    let fd = Fd(asked.fd);
    Ok(match verb {
        Verb::SndUData => send_datagram_call(alloc, asked, bytes)?,
        Verb::SndVUData => Call::TSndVUData {
            fd,
            addr: Octets::copy_of(alloc, bytes.addr)?,
            opt: Octets::copy_of(alloc, bytes.opt)?,
            parts: parts_of(alloc, bytes.udata, bytes.sizes)?,
        },
        Verb::RcvUData => Call::TRcvUData {
            fd,
            max: asked.number,
            amax: asked.amax,
            omax: asked.omax,
        },
        Verb::RcvVUData => Call::TRcvVUData {
            fd,
            sizes: sizes_of(alloc, bytes.sizes)?,
            amax: asked.amax,
            omax: asked.omax,
        },
        Verb::RcvUDErr => Call::TRcvUDErr {
            fd,
            amax: asked.amax,
            omax: asked.omax,
        },
        _ => unreachable!(),
    })
}

/// This call, with its arguments.
fn call_with(alloc: Global, verb: Verb, asked: &Asked, bytes: &Bytes) -> Result<Call, AllocError>
    ensures call { IfOk result (λ c. verb_of c ≡ verb × HasArguments c asked.now bytes.now) }
    ensures sure { CopiesNone verb bytes.now → IsOk result }
{
    match verb {
        Verb::Open | Verb::Bind | Verb::GetProtAddr | Verb::OptMgmt | Verb::SetMode => {
            local_call(alloc, verb, asked, bytes)
        }
        Verb::Connect
        | Verb::RcvConnect
        | Verb::Listen
        | Verb::Accept
        | Verb::SndDis
        | Verb::RcvDis
        | Verb::SndRelData
        | Verb::RcvRelData => connecting_call(alloc, verb, asked, bytes),
        Verb::Snd | Verb::SndV | Verb::Rcv | Verb::RcvV => data_call(alloc, verb, asked, bytes),
        Verb::SndUData | Verb::SndVUData | Verb::RcvUData | Verb::RcvVUData | Verb::RcvUDErr => {
            datagram_call(alloc, verb, asked, bytes)
        }
        _ => Ok(verb.plain_call(Fd(asked.fd))),
    }
}

/// The call; `None` exactly where the number is that of no call. Bytes up to 16 are copied without memory.
pub fn call_of(alloc: Global, asked: &Asked, bytes: &Bytes) -> Result<Option<Call>, AllocError>
    ensures call { IfOk result (λ call. IsCallOf call asked.now bytes.now) }
    ensures sure { CopiesTakeNone asked.now bytes.now → IsOk result }
{
    match Verb::numbered(asked.call) {
        Some(verb) => match call_with(alloc, verb, asked, bytes) {
            Ok(call) => Ok(Some(call)),
            Err(error) => Err(error),
        },
        None => Ok(None),
    }
}
