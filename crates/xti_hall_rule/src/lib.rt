//! The rule of a hall, in which threads meet: what its words, its slots and the views of its seats have to do with each
//! other, and that each kind of step keeps it. The hall's code stands in `xti_hall`.
#![tactic(auto)]

mod bells;
mod last;
mod rule;
mod seats_out;
mod setting;
mod steps;
mod view;

pub use bells::Bells;
pub use last::Last;
pub use rule::{Pass, Ruled, Slot};
pub use seats_out::marks_are_of_seats_out;
pub use setting::{Recorded, Setting, Stands};
pub use steps::{
    Begin, Commit, Give, Leave, Look, Note, Reopen, Return, ReturnUnseen, Ring, Settle, Take, Try,
};
pub use view::{Held, Journal, Mark, Refusal, Shown, View};
