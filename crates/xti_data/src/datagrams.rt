//! The steps that send datagrams, on lent cells.

mod indications;
mod places;
mod refusals;
mod sending;
mod step;
mod writes;

pub use step::dgram_step;
