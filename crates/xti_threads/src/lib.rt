//! Runs of scripts in which each worker's calls are made by a thread of its own.
#![tactic(auto)]

mod meeting;
mod playing;
mod setting;
mod stage;
mod starting;
mod working;

pub use playing::play;
