//! The grammar of TPI frames: which bytes are a frame, and how much of an input is one.
#![tactic(auto)]

mod kind;
mod laws;
mod measure;
mod sizes;
mod word;

pub use kind::{Kind, MOST_CONTROL, MOST_DATA, Slot};
pub use laws::{frames_law, kinds_law, one_spelling, reading_law};
pub use measure::{Measure, measure_frame};
