//! Runs of scripts in which the workers take turns.
#![tactic(auto)]

mod asking;
mod beginning;
mod names;
mod replaying;
mod resolving;
mod run;
mod stalling;
mod workers;

pub use beginning::fresh_workers;
pub use names::{Known, Names, Table};
pub use replaying::{go_on, replay};
pub use run::Run;
pub use workers::{Part, Worker};
