//! A carrier of datagrams: two datagram endpoints of one world, between which the bytes of a link go, and the run of a link over it.

mod answers;
mod calls;
mod carrier;
mod linking;

pub use carrier::DatagramCarrier;
pub use linking::show_link;
