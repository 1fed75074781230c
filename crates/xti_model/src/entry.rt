//! Replies, outcomes and the entries of a history.

ghost use Rattle.std.specs.Prelude.{◌≡◌, IfOk, IsTrue};
ghost use Rattle.xti_model.specs.Families.{is_connection_news, is_received};
ghost use Rattle.xti_model.specs.History.{taken_before};

use crate::call::Call;
use crate::copying::{copy_three, copy_two};
use std::alloc::AllocError;
use xti_base::{Errno, Event, Fd, Info, Items, Octets, Seq, State, let_go};

/// What a call answers.
#[derive(Debug, Drop)]
pub enum Reply {
    /// Done, with nothing to tell.
    Plain,
    /// The descriptor of the endpoint that t_open made.
    Opened {
        fd: Fd,
    },
    /// The address that t_bind gave, and the queue length.
    Bound {
        addr: Octets,
        qlen: u32,
    },
    /// Address, options and data of the answer to a request.
    Connected {
        addr: Octets,
        opt: Octets,
        udata: Octets,
    },
    /// An indication.
    Listened {
        seq: Seq,
        addr: Octets,
        opt: Octets,
        udata: Octets,
    },
    /// So many bytes were taken.
    Sent {
        n: u32,
    },
    /// Bytes of a connection, with the flags T_MORE and T_EXPEDITED.
    Got {
        bytes: Octets,
        flags: u32,
    },
    /// A disconnect: its reason, the indication that it takes back or 0, and data.
    Discon {
        reason: u32,
        seq: Seq,
        udata: Octets,
    },
    /// The data of an orderly release.
    RelData {
        udata: Octets,
    },
    /// A datagram or a part of one, with the flag T_MORE.
    UData {
        addr: Octets,
        opt: Octets,
        bytes: Octets,
        flags: u32,
    },
    /// A datagram that could not be delivered.
    UDErr {
        addr: Octets,
        opt: Octets,
        code: u32,
    },
    /// The first event that is pending.
    Seen {
        event: Option<Event>,
    },
    /// The state.
    Stands {
        state: State,
    },
    /// What the provider offers.
    Limits {
        info: Info,
    },
    /// The endpoint's address and its peer's.
    Addresses {
        local: Octets,
        peer: Octets,
    },
    /// The overall result of a negotiation, and the answered options.
    Options {
        result: u32,
        opt: Octets,
    },
    /// An error other than TLOOK and TBUFOVFLW.
    Refused {
        errno: Errno,
    },
    /// TLOOK: this event is pending.
    Look {
        event: Event,
    },
    /// TBUFOVFLW: a returned field is too long; the sequence number of t_listen, else 0.
    Overflow {
        seq: Seq,
    },
}

// What the other side asked or answered about a connection, once more.
fn copy_connection_news(reply: &Reply) -> Result<Reply, AllocError>
    requires { IsTrue (is_connection_news reply.now) }
    ensures { IfOk result (λ copy. copy ≡ reply.now) }
{
    match reply {
        Reply::Connected { addr, opt, udata } => {
            let (addr, opt, udata) = made!(copy_three(addr, opt, udata));
            Ok(Reply::Connected { addr, opt, udata })
        }
        Reply::Listened {
            seq,
            addr,
            opt,
            udata,
        } => {
            let (addr, opt, udata) = made!(copy_three(addr, opt, udata));
            Ok(Reply::Listened {
                seq: *seq,
                addr,
                opt,
                udata,
            })
        }
        Reply::Discon { reason, seq, udata } => Ok(Reply::Discon {
            reason: *reason,
            seq: *seq,
            udata: made!(udata.copy()),
        }),
        Reply::RelData { udata } => Ok(Reply::RelData {
            udata: made!(udata.copy()),
        }),
        _ => unreachable!(),
    }
}

// Data, a datagram or the error of a datagram, once more.
fn copy_received(reply: &Reply) -> Result<Reply, AllocError>
    requires { IsTrue (is_received reply.now) }
    ensures { IfOk result (λ copy. copy ≡ reply.now) }
{
    match reply {
        Reply::Got { bytes, flags } => Ok(Reply::Got {
            bytes: made!(bytes.copy()),
            flags: *flags,
        }),
        Reply::UData {
            addr,
            opt,
            bytes,
            flags,
        } => {
            let (addr, opt, bytes) = made!(copy_three(addr, opt, bytes));
            Ok(Reply::UData {
                addr,
                opt,
                bytes,
                flags: *flags,
            })
        }
        Reply::UDErr { addr, opt, code } => {
            let (addr, opt) = made!(copy_two(addr, opt));
            Ok(Reply::UDErr {
                addr,
                opt,
                code: *code,
            })
        }
        _ => unreachable!(),
    }
}

impl Reply {
    /// The same reply once more.
    pub fn copy(&self) -> Result<Reply, AllocError>
        ensures { IfOk result (λ copy. copy ≡ self.now) }
    {
        match self {
            Reply::Plain => Ok(Reply::Plain),
            Reply::Opened { fd } => Ok(Reply::Opened { fd: *fd }),
            Reply::Bound { addr, qlen } => Ok(Reply::Bound {
                addr: made!(addr.copy()),
                qlen: *qlen,
            }),
            Reply::Sent { n } => Ok(Reply::Sent { n: *n }),
            Reply::Seen { event } => Ok(Reply::Seen { event: *event }),
            Reply::Stands { state } => Ok(Reply::Stands { state: *state }),
            Reply::Limits { info } => Ok(Reply::Limits { info: *info }),
            Reply::Addresses { local, peer } => {
                let (local, peer) = made!(copy_two(local, peer));
                Ok(Reply::Addresses { local, peer })
            }
            Reply::Options { result, opt } => Ok(Reply::Options {
                result: *result,
                opt: made!(opt.copy()),
            }),
            Reply::Refused { errno } => Ok(Reply::Refused { errno: *errno }),
            Reply::Look { event } => Ok(Reply::Look { event: *event }),
            Reply::Overflow { seq } => Ok(Reply::Overflow { seq: *seq }),
            Reply::Connected { .. }
            | Reply::Listened { .. }
            | Reply::Discon { .. }
            | Reply::RelData { .. } => copy_connection_news(self),
            Reply::Got { .. } | Reply::UData { .. } | Reply::UDErr { .. } => copy_received(self),
        }
    }
}

/// What an entry does: a call begins, or the next part of an unfinished one is made.
#[derive(Debug, Drop)]
pub enum Act {
    /// The call begins.
    Begin(Call),
    /// The worker's unfinished call goes on.
    More,
}

impl Act {
    /// The same act once more.
    pub fn copy(&self) -> Result<Act, AllocError>
        ensures { IfOk result (λ copy. copy ≡ self.now) }
    {
        match self {
            Act::Begin(call) => Ok(Act::Begin(made!(call.copy()))),
            Act::More => Ok(Act::More),
        }
    }
}

/// How far a call has come before a step.
#[derive(Clone, Copy, Debug, PartialEq, Eq)]
pub enum Go {
    /// It begins.
    Begin,
    /// It goes on, with so many bytes taken.
    More(u32),
}

impl Go {
    /// How many bytes earlier steps took.
    #[inline(always)]
    pub fn taken_before(self) -> u32
        ensures { result ≡ taken_before self }
    {
        match self {
            Go::Begin => 0,
            Go::More(taken) => taken,
        }
    }
}

/// What a step answers.
#[derive(Debug, Drop)]
pub enum Outcome {
    /// The call is done.
    Done(Reply),
    /// A part of the call is made; so many of its bytes are taken.
    Part { taken: u32 },
}

impl Outcome {
    /// The same outcome once more.
    pub fn copy(&self) -> Result<Outcome, AllocError>
        ensures { IfOk result (λ copy. copy ≡ self.now) }
    {
        match self {
            Outcome::Done(reply) => Ok(Outcome::Done(made!(reply.copy()))),
            Outcome::Part { taken } => Ok(Outcome::Part { taken: *taken }),
        }
    }
}

/// A step of a history.
#[derive(Debug)]
pub struct Entry {
    /// The worker that made it.
    pub worker: u32,
    /// What it did.
    pub act: Act,
    /// What it answered.
    pub outcome: Outcome,
    /// The state of the call's endpoint after it; T_UNINIT where that is not open.
    pub after: State,
}

// Written out, so that a crate that lets one go proves a call of this, and nothing of what is in it.
impl Drop for Entry {
    fn drop(self) {
        let Entry {
            worker: _,
            act: _,
            outcome: _,
            after: _,
        } = self;
    }
}

impl Entry {
    /// The same entry once more.
    pub fn copy(&self) -> Result<Entry, AllocError>
        ensures { IfOk result (λ copy. copy ≡ self.now) }
    {
        let act = made!(self.act.copy());
        match self.outcome.copy() {
            Ok(outcome) => Ok(Entry {
                worker: self.worker,
                act,
                outcome,
                after: self.after,
            }),
            Err(fail) => {
                let_go(act);
                Err(fail)
            }
        }
    }
}

/// A history.
pub type Entries = Items<Entry>;

/// What applying a step gives.
#[derive(Debug, Drop)]
pub enum Applied {
    /// The step was made.
    Step { outcome: Outcome, after: State },
    /// It would have to wait.
    Blocked,
}

/// What applying a step gives, unless memory runs out.
pub type Tried = Result<Applied, AllocError>;
