//! Scripts and journals.

use crate::entry::{Act, Entries};
use crate::name::Name;
use crate::profile::Providers;
use xti_base::{Items, Octets, Parts, Prov, Sizes};

/// A call as a script has it, with names in place of numbers.
#[derive(Drop)]
pub enum NamedCall {
    TOpen {
        name: Name,
        prov: Prov,
        nonblock: bool,
    },
    TClose {
        fd: Name,
    },
    TBind {
        fd: Name,
        addr: Octets,
        qlen: u32,
        amax: u32,
    },
    TUnbind {
        fd: Name,
    },
    TConnect {
        fd: Name,
        addr: Octets,
        opt: Octets,
        udata: Octets,
        amax: u32,
        omax: u32,
        umax: u32,
    },
    TRcvConnect {
        fd: Name,
        amax: u32,
        omax: u32,
        umax: u32,
    },
    TListen {
        fd: Name,
        name: Name,
        amax: u32,
        omax: u32,
        umax: u32,
    },
    TAccept {
        fd: Name,
        resfd: Name,
        seq: Name,
        opt: Octets,
        udata: Octets,
    },
    TSnd {
        fd: Name,
        bytes: Octets,
        flags: u32,
    },
    TSndV {
        fd: Name,
        parts: Parts,
        flags: u32,
    },
    TRcv {
        fd: Name,
        max: u32,
    },
    TRcvV {
        fd: Name,
        sizes: Sizes,
    },
    TSndDis {
        fd: Name,
        seq: Option<Name>,
        udata: Octets,
    },
    TRcvDis {
        fd: Name,
        umax: u32,
    },
    TSndRel {
        fd: Name,
    },
    TRcvRel {
        fd: Name,
    },
    TSndRelData {
        fd: Name,
        udata: Octets,
    },
    TRcvRelData {
        fd: Name,
        umax: u32,
    },
    TSndUData {
        fd: Name,
        addr: Octets,
        opt: Octets,
        bytes: Octets,
    },
    TSndVUData {
        fd: Name,
        addr: Octets,
        opt: Octets,
        parts: Parts,
    },
    TRcvUData {
        fd: Name,
        max: u32,
        amax: u32,
        omax: u32,
    },
    TRcvVUData {
        fd: Name,
        sizes: Sizes,
        amax: u32,
        omax: u32,
    },
    TRcvUDErr {
        fd: Name,
        amax: u32,
        omax: u32,
    },
    TLookAt {
        fd: Name,
    },
    TGetState {
        fd: Name,
    },
    TSync {
        fd: Name,
    },
    TGetInfo {
        fd: Name,
    },
    TGetProtAddr {
        fd: Name,
        amax: u32,
        pmax: u32,
    },
    TOptMgmt {
        fd: Name,
        action: u32,
        opt: Octets,
        omax: u32,
    },
    SetMode {
        fd: Name,
        nonblock: bool,
    },
}

/// A line of a script: a worker, and a call that it makes.
#[derive(Drop)]
pub struct Line {
    /// The worker, from 0 to `LAST_WORKER`; worker 0 is the setup.
    pub worker: u32,
    /// The call.
    pub call: NamedCall,
}

/// Lines of a script.
pub type Lines = Items<Line>;

/// A script: the values of the providers, and lines.
#[derive(Drop)]
pub struct Script {
    /// What the head sets.
    pub providers: Providers,
    /// The lines, in order.
    pub lines: Lines,
}

/// A step that is blocked where a history ends.
#[derive(Drop)]
pub struct StallLine {
    /// The worker whose step it is.
    pub worker: u32,
    /// The step.
    pub act: Act,
}

/// Blocked steps.
pub type Stalls = Items<StallLine>;

/// What a run prints: the values of the providers, the history, and the steps that are blocked at its end.
#[derive(Drop)]
pub struct Journal {
    /// The values of the providers.
    pub providers: Providers,
    /// The history.
    pub entries: Entries,
    /// The blocked steps.
    pub stalls: Stalls,
}
