//! The queue of data indications that wait at an endpoint.
#![tactic(auto)]

mod front;
mod queue;

pub use queue::{Piece, ReadQueue};
