use xti_base::Fd;
use xti_model::Spot;

/// The calls that may wait. A connect waits as `RcvConnect` does, and a vector form as the plain one.
#[derive(Clone, Copy, Debug, PartialEq, Eq)]
pub enum WantKind {
    /// The answer to a request for a connection.
    RcvConnect,
    /// A request for a connection.
    Listen,
    /// Room for data.
    Snd,
    /// Data.
    Rcv,
    /// Room for a datagram.
    SndUData,
    /// A datagram, or the error of one.
    RcvUData,
}

/// The part of a call on which being blocked depends.
#[derive(Clone, Copy, Debug)]
pub struct Want {
    /// What the call waits for.
    pub kind: WantKind,
    /// The endpoint on which it waits.
    pub fd: Fd,
    /// The bytes that are still to be sent.
    pub left: u32,
    /// The flags of a send.
    pub flags: u32,
    /// The destination of a datagram.
    pub to: Spot,
}
