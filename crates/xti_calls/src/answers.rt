//! The answers of calls in their own types.

ghost use Rattle.std.specs.Prelude.{◌≡◌, ◌≤◌, length, min, sum, IfOk, MatchResult, OnErr};
ghost use Rattle.xti_verbs.specs.declared.answer.Answer.TheVariants as answer;
ghost use Rattle.xti_calls.specs.declared.buffers.TheConstants.{MOST_OF_STREAM};
ghost use Rattle.xti_calls.specs.Typed.{MayBe, Told, IsError, SaysError, HasAtMost};
ghost use Rattle.xti_calls.specs.Typed.{IsDone, IsOpened, IsBound, IsConnected, IsListened, IsSent, IsGot, IsGotInto, AreGot, IsDisconnect, IsReleaseData, IsDatagram, IsDatagramInParts, IsDatagramError, IsSeen, IsState, IsInfo, AreAddresses, IsNegotiated};

use crate::buffers::{Buffers, MOST_OF_STREAM};
use crate::calling::Halt;
use crate::library::Seat;
use std::alloc::{AllocError, Global};
use std::fmt;
use thiserror::Error;
use xti_base::limits::{MOST_ADDRESS, MOST_OPTIONS, MOST_SIZE};
use xti_base::{Errno, Event, Fd, Info, Octets, Parts, Seq, State, let_go};
use xti_model::Reply;

/// Why a call has no answer of its own. There are two ways to fail. The text is in plain words.
///
/// XTI refused the call: `Err`, `Look` and `Overflow` are what t_errno tells in C. The call is finished; the history has its
/// entry, with the error, and the seat may make its next call. Each call lists these errors in the order in which they are
/// looked at, and answers the first whose condition holds. A call that was refused has changed nothing, but for these:
/// - TBUFOVFLW: what the call does is done, and what it would have told is lost. Of `t_rcvudata` and `t_rcvvudata` the whole
///   datagram is gone.
/// - TFLOW: the endpoint is marked, so that T_GODATA or T_GOEXDATA tells of room.
/// - `t_connect`: its TNODATA with O_NONBLOCK says that the request is made, and in blocking mode an error that comes after the
///   request doesn't take it back.
///
/// Or the call stopped before it had an answer. With `Unfinished` and `Memory` that was before its first step, and the seat is
/// as it was. With `Halt` it was at a step: memory ran out, or the call is blocked while each other seat that is out rests or is
/// blocked too. The steps that it had made stand:
/// - Where `Caller::unfinished` is `None` then, it had made none. It has changed nothing, and the caller may make any call.
/// - Else the request of a blocking `t_connect` was made, or some bytes of a blocking `t_snd` or `t_sndv` were taken (no other
///   call is made in parts). Every other call answers `Unfinished` until `Caller::resume` has gone on with this one.
///
/// A step takes all its memory, that for the answer too, before it changes anything: no answer of a step that was made is lost
/// for lack of memory.
#[derive(Clone, Copy, Debug, Error)]
pub enum Fail {
    /// An error other than TLOOK and TBUFOVFLW.
    #[error("refused with {}", .0.name())]
    Err(Errno),
    /// TLOOK: this event is pending, the first of those that the call looks at.
    #[error("refused with TLOOK at {}", .0.name())]
    Look(Event),
    /// TBUFOVFLW: a returned field is longer than the caller takes. Of `t_listen` it has the sequence number of the request
    /// that was taken, by which it may be accepted or rejected; of every other call 0.
    #[error("refused with TBUFOVFLW")]
    Overflow(Seq),
    /// The call stopped at a step that it couldn't make, for the reason that `Halt` has.
    #[error("{0}")]
    Halt(Halt),
    /// Out of memory before the first step, and none was made: while the bytes, parts or sizes among the arguments were copied,
    /// or the buffers of a vector receive were made. A call without any of these never answers it.
    #[error("out of memory")]
    Memory(AllocError),
    /// The caller has another call unfinished, and this one wasn't made. It is answered exactly then, before anything else.
    #[error("another call is unfinished")]
    Unfinished,
}

impl From<AllocError> for Fail {
    ghost use Rattle.xti_calls.specs.declared.answers.Fail.TheVariants.{Memory};

    ghost from_gives = { λ error e. e ≡ Memory error };

    fn from(error: AllocError) -> Fail {
        Fail::Memory(error)
    }
}

/// How many bytes the caller takes at most of each field that is returned (the maxlen of a netbuf in XNS).
///
/// With 0 the caller doesn't take the field: it is answered as an empty list, however long it is. Where a field is longer than
/// its number, which isn't 0, the call answers TBUFOVFLW and tells none of the fields. An address has at most 64 bytes, options
/// that the other end gave at most 256, and data with a request or its answer at most 64. The arguments `amax`, `pmax`, `omax`
/// and `umax` of other calls are such numbers too: of an address, the peer's address, options and data.
#[derive(Clone, Copy, Debug, PartialEq, Eq)]
pub struct Max {
    /// Of the address, in bytes; 64 is always enough.
    pub addr: u32,
    /// Of the options, in bytes; 256 is always enough.
    pub opt: u32,
    /// Of the data, in bytes; 64 is always enough, but for `t_rcvudata`. There it is how many bytes of the datagram are taken
    /// at once: where it has more the answer has T_MORE, and no TBUFOVFLW comes of it.
    pub udata: u32,
}

impl Max {
    /// Takes every field: TBUFOVFLW never comes with it, and a datagram is taken at once.
    pub const ALL: Max = Max {
        addr: MOST_ADDRESS as u32,
        opt: MOST_OPTIONS as u32,
        udata: MOST_SIZE,
    };
}

/// Address, options and data that came with a request to connect, with its answer, or as a datagram (t_call and t_unitdata in
/// XNS).
///
/// A field that the caller doesn't take, by a `Max` of 0, is an empty list.
#[derive(Drop)]
pub struct TCall {
    /// Of `t_listen`, the sequence number of the request, from 1 on, by which `t_accept` and `t_snddis` name it; else 0.
    pub seq: Seq,
    /// The address of the other end: of `t_listen` the caller's, of `t_connect` and `t_rcvconnect` that of the endpoint that
    /// got the connection (`resfd` of `t_accept`), of a datagram the sender's. Empty too for each part of a datagram but the
    /// first.
    pub addr: Octets,
    /// The options that the other end gave, in the form of t_opthdr (`read_options` of `xti_opt` reads them); empty where it
    /// gave none, and for each part of a datagram but the first.
    pub opt: Octets,
    /// The data: at most 64 bytes with a request or its answer, empty where none were given; else the bytes of the datagram, or
    /// of this part of it. Always empty of `t_rcvvudata`, which answers the bytes beside it.
    pub udata: Octets,
}

impl fmt::Debug for TCall {
    fn fmt<W: fmt::Write>(&self, f: &mut fmt::Formatter<W>) -> fmt::Result {
        write!(
            f,
            "TCall {{ seq: {:?}, addr: {:?}, opt: {:?}, udata: {:?} }}",
            self.seq,
            self.addr.as_slice(),
            self.opt.as_slice(),
            self.udata.as_slice()
        )
    }
}

/// What stands for a sequence number where there is none.
const NO_SEQ: Seq = Seq(0);

/// The error that a call answered, or why it stopped.
fn error_of(reply: &Result<Reply, Fail>) -> Fail
    requires { IfOk reply.now IsError }
    ensures { MatchResult reply.now (λ r. SaysError r result) (λ fail. result ≡ fail) }
{
    match reply {
        Ok(Reply::Refused { errno }) => Fail::Err(*errno),
        Ok(Reply::Look { event }) => Fail::Look(*event),
        Ok(Reply::Overflow { seq }) => Fail::Overflow(*seq),
        Ok(_) => unreachable!(),
        Err(fail) => *fail,
    }
}

/// The same of a reply that nothing else is taken from.
fn failed(reply: Result<Reply, Fail>) -> Fail
    requires { IfOk reply IsError }
    ensures { MatchResult reply (λ r. SaysError r result) (λ fail. result ≡ fail) }
{
    let fail = error_of(&reply);
    let_go(reply);
    fail
}

/// Nothing, of a call that tells nothing.
pub(crate) fn done(reply: Result<Reply, Fail>) -> Result<(), Fail>
    requires { IfOk reply (MayBe answer.Plain) }
    ensures { Told IsDone reply result }
{
    let told = match &reply {
        Ok(Reply::Plain) => Ok(()),
        other => Err(error_of(other)),
    };
    let_go(reply);
    told
}

/// The descriptor of a new endpoint.
pub(crate) fn opened(reply: Result<Reply, Fail>) -> Result<Fd, Fail>
    requires { IfOk reply (MayBe answer.Opened) }
    ensures { Told IsOpened reply result }
{
    let told = match &reply {
        Ok(Reply::Opened { fd }) => Ok(*fd),
        other => Err(error_of(other)),
    };
    let_go(reply);
    told
}

/// The address that was bound, and the queue length.
pub(crate) fn bound(reply: Result<Reply, Fail>) -> Result<(Octets, u32), Fail>
    requires { IfOk reply (MayBe answer.Bound) }
    ensures { Told IsBound reply result }
{
    match reply {
        Ok(Reply::Bound { addr, qlen }) => Ok((addr, qlen)),
        other => Err(failed(other)),
    }
}

/// The answer to a request to connect, with 0 for a sequence number.
pub(crate) fn connected(reply: Result<Reply, Fail>) -> Result<TCall, Fail>
    requires { IfOk reply (MayBe answer.Connected) }
    ensures { Told IsConnected reply result }
{
    match reply {
        Ok(Reply::Connected { addr, opt, udata }) => Ok(TCall {
            seq: NO_SEQ,
            addr,
            opt,
            udata,
        }),
        other => Err(failed(other)),
    }
}

/// A request to connect, with its sequence number.
pub(crate) fn listened(reply: Result<Reply, Fail>) -> Result<TCall, Fail>
    requires { IfOk reply (MayBe answer.Listened) }
    ensures { Told IsListened reply result }
{
    match reply {
        Ok(
            Reply::Listened {
                seq,
                addr,
                opt,
                udata,
            },
        ) => Ok(TCall {
            seq,
            addr,
            opt,
            udata,
        }),
        other => Err(failed(other)),
    }
}

/// How many bytes were taken.
pub(crate) fn sent(reply: Result<Reply, Fail>) -> Result<u32, Fail>
    requires { IfOk reply (MayBe answer.Sent) }
    ensures { Told IsSent reply result }
{
    let told = match &reply {
        Ok(Reply::Sent { n }) => Ok(*n),
        other => Err(error_of(other)),
    };
    let_go(reply);
    told
}

/// Bytes of a connection, and flags.
pub(crate) fn got(reply: Result<Reply, Fail>) -> Result<(Octets, u32), Fail>
    requires { IfOk reply (MayBe answer.Got) }
    ensures { Told IsGot reply result }
{
    match reply {
        Ok(Reply::Got { bytes, flags }) => Ok((bytes, flags)),
        other => Err(failed(other)),
    }
}

/// How many bytes of a connection stand in the caller's buffer now, from its first on, and flags; the seat keeps the memory of the
/// reply for the next receive.
pub(crate) fn got_into(
    reply: Result<Reply, Fail>,
    buffer: &mut [u8],
    seat: &mut Seat,
) -> Result<(u32, u32), Fail>
    requires kind { IfOk reply (MayBe answer.Got) }
    requires room { IfOk reply (HasAtMost (min (length buffer.old) MOST_OF_STREAM)) }
    ensures told { Told (IsGotInto buffer.old buffer.new) reply result }
    ensures count { IfOk result (λ r. r.0 ≤ length buffer.new) }
    ensures seat { seat.new ≡ seat.old }
    ensures err { OnErr result (buffer.new ≡ buffer.old) }
{
    match reply {
        Ok(Reply::Got { bytes, flags }) => {
            let got = bytes.as_slice();
            buffer[..got.len()].copy_from_slice(got);
            let count = got.len() as u32;
            seat.keep_room(bytes);
            Ok((count, flags))
        }
        other => Err(failed(other)),
    }
}

/// Bytes of a connection in the caller's buffers, and flags.
pub(crate) fn got_parts(reply: Result<Reply, Fail>, buffers: Buffers) -> Result<(Parts, u32), Fail>
    requires kind { IfOk reply (MayBe answer.Got) }
    requires room { IfOk reply (HasAtMost (min (sum buffers.sizes) buffers.most)) }
    ensures { Told (AreGot buffers.sizes) reply result }
{
    match reply {
        Ok(Reply::Got { bytes, flags }) => {
            let parts = buffers.fill(&bytes);
            let_go(bytes);
            Ok((parts, flags))
        }
        other => {
            let_go(buffers);
            Err(failed(other))
        }
    }
}

/// The reason of a disconnect, its sequence number and data.
pub(crate) fn disconnected(reply: Result<Reply, Fail>) -> Result<(u32, Seq, Octets), Fail>
    requires { IfOk reply (MayBe answer.Discon) }
    ensures { Told IsDisconnect reply result }
{
    match reply {
        Ok(Reply::Discon { reason, seq, udata }) => Ok((reason, seq, udata)),
        other => Err(failed(other)),
    }
}

/// The data of a release.
pub(crate) fn release_data(reply: Result<Reply, Fail>) -> Result<Octets, Fail>
    requires { IfOk reply (MayBe answer.RelData) }
    ensures { Told IsReleaseData reply result }
{
    match reply {
        Ok(Reply::RelData { udata }) => Ok(udata),
        other => Err(failed(other)),
    }
}

/// A datagram or a part of one, and flags.
pub(crate) fn datagram(reply: Result<Reply, Fail>) -> Result<(TCall, u32), Fail>
    requires { IfOk reply (MayBe answer.UData) }
    ensures { Told IsDatagram reply result }
{
    match reply {
        Ok(
            Reply::UData {
                addr,
                opt,
                bytes,
                flags,
            },
        ) => {
            let datagram = TCall {
                seq: NO_SEQ,
                addr,
                opt,
                udata: bytes,
            };
            Ok((datagram, flags))
        }
        other => Err(failed(other)),
    }
}

/// A datagram or a part of one in the caller's buffers, and flags.
pub(crate) fn datagram_parts(
    alloc: Global,
    reply: Result<Reply, Fail>,
    buffers: Buffers,
) -> Result<(TCall, Parts, u32), Fail>
    requires kind { IfOk reply (MayBe answer.UData) }
    requires room { IfOk reply (HasAtMost (min (sum buffers.sizes) buffers.most)) }
    ensures { Told (IsDatagramInParts buffers.sizes) reply result }
{
    match reply {
        Ok(
            Reply::UData {
                addr,
                opt,
                bytes,
                flags,
            },
        ) => {
            let datagram = TCall {
                seq: NO_SEQ,
                addr,
                opt,
                udata: Octets::new(alloc),
            };
            let parts = buffers.fill(&bytes);
            let_go(bytes);
            Ok((datagram, parts, flags))
        }
        other => {
            let_go(buffers);
            Err(failed(other))
        }
    }
}

/// Address and options of a datagram that was not delivered, and the code.
pub(crate) fn datagram_error(reply: Result<Reply, Fail>) -> Result<(Octets, Octets, u32), Fail>
    requires { IfOk reply (MayBe answer.UDErr) }
    ensures { Told IsDatagramError reply result }
{
    match reply {
        Ok(Reply::UDErr { addr, opt, code }) => Ok((addr, opt, code)),
        other => Err(failed(other)),
    }
}

/// The first event that is pending, or none.
pub(crate) fn seen(reply: Result<Reply, Fail>) -> Result<Option<Event>, Fail>
    requires { IfOk reply (MayBe answer.Seen) }
    ensures { Told IsSeen reply result }
{
    let told = match &reply {
        Ok(Reply::Seen { event }) => Ok(*event),
        other => Err(error_of(other)),
    };
    let_go(reply);
    told
}

/// The state.
pub(crate) fn state(reply: Result<Reply, Fail>) -> Result<State, Fail>
    requires { IfOk reply (MayBe answer.Stands) }
    ensures { Told IsState reply result }
{
    let told = match &reply {
        Ok(Reply::Stands { state }) => Ok(*state),
        other => Err(error_of(other)),
    };
    let_go(reply);
    told
}

/// What the provider offers.
pub(crate) fn info(reply: Result<Reply, Fail>) -> Result<Info, Fail>
    requires { IfOk reply (MayBe answer.Limits) }
    ensures { Told IsInfo reply result }
{
    let told = match &reply {
        Ok(Reply::Limits { info }) => Ok(*info),
        other => Err(error_of(other)),
    };
    let_go(reply);
    told
}

/// The endpoint's address and its peer's.
pub(crate) fn addresses(reply: Result<Reply, Fail>) -> Result<(Octets, Octets), Fail>
    requires { IfOk reply (MayBe answer.Addresses) }
    ensures { Told AreAddresses reply result }
{
    match reply {
        Ok(Reply::Addresses { local, peer }) => Ok((local, peer)),
        other => Err(failed(other)),
    }
}

/// The overall result of a negotiation, and the answered options.
pub(crate) fn negotiated(reply: Result<Reply, Fail>) -> Result<(u32, Octets), Fail>
    requires { IfOk reply (MayBe answer.Options) }
    ensures { Told IsNegotiated reply result }
{
    match reply {
        Ok(Reply::Options { result, opt }) => Ok((result, opt)),
        other => Err(failed(other)),
    }
}
