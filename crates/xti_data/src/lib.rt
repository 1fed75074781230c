//! The steps that send data and releases on connections, and datagrams, on lent cells.
#![tactic(auto)]

mod datagrams;
mod limits;
mod places;
mod portions;
mod refusals;
mod releasing;
mod send_parts;
mod sending;
mod step;
mod writes;

pub use datagrams::dgram_step;
pub use send_parts::SendParts;
pub use step::data_step;
