//! The hall, where threads meet: cells with turns, one history in a journal, and seats that take turns.
#![tactic(auto)]

mod ended;
mod hall;
mod made_step;
mod marks;
mod pen;
mod record;
mod seat;
mod sleepers;
mod stall;

pub use ended::Ended;
pub use hall::{Hall, NoSeat, Rings};
pub use made_step::MadeStep;
pub use pen::Pen;
pub use seat::Seat;
pub use stall::{Stall, Waited};
