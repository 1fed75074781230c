//! Frames as lines of text, one line for each.
#![tactic(auto)]

mod lines;
mod show;

pub use show::{FramesFail, show_frames};
