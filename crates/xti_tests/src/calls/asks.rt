//! Calls as tables tell them, and what makes them and writes down what they answer.

use crate::calls::answers::{note, note_bytes};
use crate::calls::looks::{Look, make_look};
use std::sync::Wait;
use xti_base::{Fd, Seq, Sizes, let_go};
use xti_calls::{Caller, Fail as CallFail, Max, TCall};
use xti_data::SendParts;

/// How many bytes of an address, of options, and of data with a request the callers take at most.
const MOST: Max = Max {
    addr: 64,
    opt: 256,
    udata: 64,
};

/// The options of each call but `t_optmgmt`, and the data of each request, answer and disconnect.
const NOTHING: &[u8] = b"";

/// In place of the descriptor where an endpoint is opened, or several are looked at.
pub(crate) const NEW: Fd = Fd(0);

/// The descriptor, and the call.
pub(crate) type Row = (Fd, Ask);

/// A call with its other arguments.
pub(crate) enum Ask {
    /// `t_open`: the provider, and O_NONBLOCK.
    Open(&'static [u8], bool),
    /// A call that answers no more than that it is done.
    Do(Do),
    /// A call that gives an address, or data.
    Give(Give),
    /// A call that tells of an endpoint.
    Tell(Tell),
    /// A call that answers who is at the other end.
    Request(Request),
    /// A call that takes what waits.
    Take(Take),
    /// Parts that are sent over a connection, or to an address.
    SendParts(Option<&'static [u8]>, &'static [&'static [u8]]),
    /// Buffers of these sizes for what waits, and whether that is a datagram.
    ReceiveParts(bool, &'static [u32]),
    /// What is no call.
    Look(Look),
}

/// Calls that answer no more than that they are done.
pub(crate) enum Do {
    Close,
    Unbind,
    Mode(bool),
    Accept(Fd, Seq),
    Disconnect(Seq),
    Release,
    TakeRelease,
}

/// Calls that give an address, with a queue length, or data: with flags, with a release, to an address.
pub(crate) enum Give {
    Address(&'static [u8], u32),
    Bytes(&'static [u8], u32),
    Release(&'static [u8]),
    Datagram(&'static [u8], &'static [u8]),
}

/// Calls that tell of an endpoint; `t_optmgmt` with its action and its options.
pub(crate) enum Tell {
    Event,
    State,
    Sync,
    Info,
    Addresses,
    Options(u32, &'static [u8]),
}

/// Calls that answer who is at the other end: `t_connect` with the address, `t_rcvconnect`, and `t_listen` with how many bytes
/// of the address the caller takes at most.
pub(crate) enum Request {
    Connect(&'static [u8]),
    Confirm,
    Listen(u32),
}

/// Calls that take what waits; of bytes, with how many the caller takes at most, or how many dots the buffer has into which they come,
/// or for how many the caller takes memory before they do.
pub(crate) enum Take {
    Disconnect,
    Release(u32),
    Bytes(u32),
    Into(usize),
    Reserve(usize),
    Datagram(u32),
    DatagramError,
}

/// Makes a call that answers no more than that it is done.
fn done<R: Wait + Sync>(caller: &mut Caller<R>, fd: Fd, call: &Do) -> Result<(), CallFail> {
    let none = NOTHING;
    match *call {
        Do::Close => caller.t_close(fd),
        Do::Unbind => caller.t_unbind(fd),
        Do::Mode(nonblock) => caller.set_mode(fd, nonblock),
        Do::Accept(resfd, seq) => caller.t_accept(fd, resfd, seq, none, none),
        Do::Disconnect(seq) => caller.t_snddis(fd, seq, none),
        Do::Release => caller.t_sndrel(fd),
        Do::TakeRelease => caller.t_rcvrel(fd),
    }
}

/// Makes a call that gives an address or data.
fn make_give<R: Wait + Sync>(caller: &mut Caller<R>, log: &mut String, fd: Fd, call: &Give) {
    match *call {
        Give::Address(addr, qlen) => note_bytes(log, caller.t_bind(fd, addr, qlen, MOST.addr)),
        Give::Bytes(bytes, flags) => note(log, caller.t_snd(fd, bytes, flags)),
        Give::Release(udata) => note(log, caller.t_sndreldata(fd, udata)),
        Give::Datagram(addr, bytes) => note(log, caller.t_sndudata(fd, addr, NOTHING, bytes)),
    }
}

/// Makes a call that tells of an endpoint.
fn make_tell<R: Wait + Sync>(caller: &mut Caller<R>, log: &mut String, fd: Fd, call: &Tell) {
    match *call {
        Tell::Event => note(log, caller.t_look(fd)),
        Tell::State => note(log, caller.t_getstate(fd)),
        Tell::Sync => note(log, caller.t_sync(fd)),
        Tell::Info => note(log, caller.t_getinfo(fd)),
        Tell::Addresses => note_bytes(log, caller.t_getprotaddr(fd, MOST.addr, MOST.addr)),
        Tell::Options(action, opt) => note_bytes(log, caller.t_optmgmt(fd, action, opt, MOST.opt)),
    }
}

/// Makes a call that answers who is at the other end.
fn make_request<R: Wait + Sync>(
    caller: &mut Caller<R>,
    fd: Fd,
    call: &Request,
) -> Result<TCall, CallFail> {
    match *call {
        Request::Connect(addr) => caller.t_connect(fd, addr, NOTHING, NOTHING, MOST),
        Request::Confirm => caller.t_rcvconnect(fd, MOST),
        Request::Listen(addr) => caller.t_listen(fd, Max { addr, ..MOST }),
    }
}

/// Receives into a buffer of so many dots, at most 20, and writes down what stands in it then too.
fn receive_into<R: Wait + Sync>(caller: &mut Caller<R>, log: &mut String, fd: Fd, size: usize) {
    let mut dots = [b'.'; 20];
    let size = size.min(dots.len());
    let buffer = &mut dots[..size];
    note_bytes(log, caller.t_rcv_into(fd, buffer));
    let _ = writeln!(log, " {buffer:?}");
}

/// Takes memory for receives of so many bytes.
fn reserve<R: Wait + Sync>(caller: &mut Caller<R>, count: usize) -> Result<(), CallFail> {
    caller.reserve(count)?;
    Ok(())
}

/// Makes a call that takes what waits.
fn make_take<R: Wait + Sync>(caller: &mut Caller<R>, log: &mut String, fd: Fd, call: &Take) {
    match *call {
        Take::Disconnect => note_bytes(log, caller.t_rcvdis(fd, MOST.udata)),
        Take::Release(max) => note_bytes(log, caller.t_rcvreldata(fd, max)),
        Take::Bytes(max) => note_bytes(log, caller.t_rcv(fd, max)),
        Take::Into(size) => receive_into(caller, log, fd, size),
        Take::Reserve(count) => note(log, reserve(caller, count)),
        Take::Datagram(udata) => note(log, caller.t_rcvudata(fd, Max { udata, ..MOST })),
        Take::DatagramError => note_bytes(log, caller.t_rcvuderr(fd, MOST.addr, MOST.opt)),
    }
}

/// Sends these parts; fewer where memory runs out.
fn send_parts<R: Wait + Sync>(
    caller: &mut Caller<R>,
    log: &mut String,
    fd: Fd,
    to: Option<&[u8]>,
    all: &[&[u8]],
) {
    let mut parts = SendParts::new(caller.alloc());
    for part in all {
        let _ = parts.add(part);
    }
    match to {
        None => note(log, caller.t_sndv(fd, &parts, 0)),
        Some(addr) => note(log, caller.t_sndvudata(fd, addr, NOTHING, &parts)),
    }
    let_go(parts);
}

/// Receives into buffers of these sizes; into fewer where memory runs out.
fn receive_parts<R: Wait + Sync>(
    caller: &mut Caller<R>,
    log: &mut String,
    fd: Fd,
    is_datagram: bool,
    all: &[u32],
) {
    let mut sizes = Sizes::new(caller.alloc());
    for size in all {
        let _ = sizes.push(*size);
    }
    if is_datagram {
        note_bytes(log, caller.t_rcvvudata(fd, &sizes, MOST.addr, MOST.opt));
    } else {
        note_bytes(log, caller.t_rcvv(fd, &sizes));
    }
    let_go(sizes);
}

/// Makes a call, and writes down what it answers.
pub(crate) fn make<R: Wait + Sync>(caller: &mut Caller<R>, log: &mut String, fd: Fd, ask: &Ask) {
    match ask {
        Ask::Open(name, nonblock) => note(log, caller.t_open(name, *nonblock)),
        Ask::Do(call) => note(log, done(caller, fd, call)),
        Ask::Give(call) => make_give(caller, log, fd, call),
        Ask::Tell(call) => make_tell(caller, log, fd, call),
        Ask::Request(call) => note(log, make_request(caller, fd, call)),
        Ask::Take(call) => make_take(caller, log, fd, call),
        Ask::SendParts(to, parts) => send_parts(caller, log, fd, *to, parts),
        Ask::ReceiveParts(is_datagram, sizes) => {
            receive_parts(caller, log, fd, *is_datagram, sizes)
        }
        Ask::Look(at) => make_look(caller, log, fd, at),
    }
}
