//! What befalls a link.

use xti_base::{Items, Octets};

/// The most events of a run.
pub const MOST_EVENTS: usize = 10_000;

/// One thing that befalls a link. Loss is that a packet never comes; repetition and reordering are any choice of places.
#[derive(Drop)]
pub enum LinkEvent {
    /// The sender is offered a body.
    Offer(Octets),
    /// The sender waited too long for an acknowledgement.
    Timeout,
    /// The packet that was put at this place, counted from 0, comes to the receiver.
    Data(u32),
    /// The acknowledgement that was put at this place, counted from 0, comes to the sender.
    Ack(u32),
}

/// Events in order.
pub type Events = Items<LinkEvent>;
