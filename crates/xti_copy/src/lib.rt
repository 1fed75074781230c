//! Who makes the calls of sockets: on one thread, and by a seat of a library that threads share. And the copy of an input over two
//! sockets of one thread, with all its entries.
#![tactic(auto)]

mod connecting;
mod copying;
mod preparing;
mod releasing;
mod rider;
mod settling;
mod shared;

pub use copying::copy;
pub use rider::Rider;
pub use shared::Shared;
