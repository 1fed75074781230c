//! The library: its calls in their own types, with worked values from outside, and threads that are held at gates.

mod answers;
pub(crate) mod asks;
pub(crate) mod connections;
pub(crate) mod conversations;
mod datagrams;
mod endpoints;
mod gates;
pub(crate) mod looks;
mod parts;
mod requests;
mod seats;
mod stalls;
mod structures;
