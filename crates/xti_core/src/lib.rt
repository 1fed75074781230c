//! One step over lent cells, the world for one thread, and room for the answer's second copy.
#![tactic(auto)]

mod applying;
mod looking;
mod spare;
mod touching;
mod waiting;
mod world;

pub use applying::apply;
pub use looking::{EVENTS, Sight, events_of, sight_of};
pub use spare::Spare;
pub use touching::touch;
pub use world::World;
pub use xti_wants::{Want, WantKind, want_of};
