//! The parts of an endpoint.

ghost use Rattle.std.specs.Prelude.{◌≡◌};
ghost use Rattle.xti_end.specs.Waiting.{no_connection, HasRoomOf, IsEmpty};

use crate::indications::Ind;
use crate::lists::WaitingList;
use std::alloc::Global;
use tpi_prim::Frame;
use xti_base::{Fd, Octets, Prov, Seq, State};
use xti_model::Spot;
use xti_queue::ReadQueue;

/// The parts of an open endpoint that writers replace.
#[derive(Drop)]
pub(crate) struct Parts {
    pub(crate) prov: Prov,
    pub(crate) nonblock: bool,
    pub(crate) state: State,
    pub(crate) address: Option<Octets>,
    pub(crate) qlen: u32,
    pub(crate) begun: bool,
    pub(crate) flow_datagram: Option<Spot>,
    pub(crate) sndbuf: u32,
    pub(crate) rcvbuf: u32,
    pub(crate) connection: Connection,
}

/// Those among them that a datagram endpoint never uses.
#[derive(Drop)]
pub(crate) struct Connection {
    pub(crate) last_number: Seq,
    pub(crate) target: Option<(Fd, Seq)>,
    pub(crate) peer: Option<Fd>,
    pub(crate) peer_address: Option<Octets>,
    /// A T_CONN_CON.
    pub(crate) confirmation: Option<Frame>,
    pub(crate) mid_expedited: bool,
    /// A T_ORDREL_IND, whose user data go with the release.
    pub(crate) release: Option<Frame>,
    pub(crate) unfinished_normal: u32,
    pub(crate) unfinished_expedited: u32,
    pub(crate) flow_normal: bool,
    pub(crate) flow_expedited: bool,
}

/// What waits at an endpoint. Nothing waits at a closed place, but the room that was made stays.
#[derive(Drop)]
pub(crate) struct Waiting {
    pub(crate) datagrams: ReadQueue,
    pub(crate) datagram_errors: WaitingList<Frame>,
    pub(crate) pending: WaitingList<Ind>,
    pub(crate) outstanding: WaitingList<Ind>,
    pub(crate) disconnects: WaitingList<Frame>,
    pub(crate) normal: ReadQueue,
    pub(crate) expedited: ReadQueue,
}

impl Connection {
    /// No connection, and none was asked for. Takes no memory.
    pub(crate) fn none() -> Connection
        ensures { result ≡ no_connection }
    {
        Connection {
            last_number: Seq(0),
            target: None,
            peer: None,
            peer_address: None,
            confirmation: None,
            mid_expedited: false,
            release: None,
            unfinished_normal: 0,
            unfinished_expedited: 0,
            flow_normal: false,
            flow_expedited: false,
        }
    }
}

impl Waiting {
    /// Nothing waits, and no room was made. Takes no memory.
    pub(crate) fn new(alloc: Global) -> Waiting
        ensures { IsEmpty result }
    {
        Waiting {
            datagrams: ReadQueue::new(alloc),
            datagram_errors: WaitingList::new(alloc),
            pending: WaitingList::new(alloc),
            outstanding: WaitingList::new(alloc),
            disconnects: WaitingList::new(alloc),
            normal: ReadQueue::new(alloc),
            expedited: ReadQueue::new(alloc),
        }
    }

    /// Nothing waits any more. Takes no memory.
    pub(crate) fn discard(&mut self)
        ensures empty { IsEmpty self.new }
        ensures room { HasRoomOf self.old self.new }
    {
        self.datagrams.discard_stream();
        self.datagram_errors.clear();
        self.pending.clear();
        self.outstanding.clear();
        self.disconnects.clear();
        self.normal.discard_stream();
        self.expedited.discard_stream();
    }
}
