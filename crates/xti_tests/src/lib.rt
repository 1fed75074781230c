//! Tests of the crates below the runs; of the library, its calls in their own types and threads that are held at gates; of what its
//! callers see; of the program over sources and sinks in memory.
//!
//! A value of many parts, as a seat or a call, is let go by a call: that is proved once for its type, and not once for each
//! place where it is let go.
#![tactic(auto)]

#[cfg(test)]
mod callers;
#[cfg(test)]
mod calls;
#[cfg(test)]
mod cases;
#[cfg(test)]
mod each_fault;
#[cfg(test)]
mod library;
#[cfg(test)]
mod running;
#[cfg(test)]
mod runs;
#[cfg(test)]
mod threads;
#[cfg(test)]
mod units;
#[cfg(test)]
mod waiting;
