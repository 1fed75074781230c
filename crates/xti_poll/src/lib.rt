//! Poll: which of several endpoints has an event that is asked for, at one point of the history; and a table
//! of what endpoints show.
#![tactic(auto)]

mod asked;
mod bits;
mod found;
mod lines;
mod polling;
mod set;
mod tables;

pub use asked::Asked;
pub use found::Found;
pub use set::{MOST_POLLED, PollFail, PollSet};
pub use tables::table;
