//! Go back N over lossy datagrams: a sender that keeps up to 8 packets until they are acknowledged, a receiver that takes them in
//! order, and the run of both ends over any carrier of bytes, as that of datagrams between two endpoints; and reading link
//! scripts.
#![tactic(auto)]

mod carrier;
mod datagrams;
mod ends;
mod events;
mod laws;
mod link;
mod reading;
mod receiver;
mod report;
mod sender;
mod wire;

pub use carrier::Carrier;
pub use datagrams::{DatagramCarrier, show_link};
pub use events::{Events, LinkEvent, MOST_EVENTS};
pub use laws::{never_both, one_reading};
pub use link::{links_keep_order, rounds_deliver_all, run_link};
pub use reading::{LinkFail, read_link};
pub use receiver::{Receiver, Taken};
pub use report::{Report, write_report};
pub use sender::{OfferFail, Packets, Sender};
pub use wire::{MOST_BODY, Packet, Wire, WireFail, read_wire, texts_tell_wires, write_wire};
