//! The library for C: one step of a world at a time.
#![tactic(auto)]

mod exports;
mod loose;
mod passing;
mod providers;
mod recording;
mod seeing;
mod stepping;
