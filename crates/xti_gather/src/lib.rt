//! The cells of a hall, lent to one step: just those that its call touches. What an endpoint shows: its state and its first pending
//! event, found without waiting for anybody; and the pending events of several at one point of the history.
#![tactic(auto)]

mod cell;
mod choosing;
mod entering;
mod gathering;
mod glancing;
mod leaving;
mod lending;
mod opening;

pub use cell::Cell;
pub use choosing::{all_below, missing};
pub use entering::{enter, try_enter};
pub use gathering::gather;
pub use glancing::{Glance, glance, survey};
pub use leaving::leave_all;
pub use lending::nothing_lent;
pub use opening::{open_hall, opening_cells};
