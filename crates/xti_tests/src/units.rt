//! Of the crates below the runs, and of links: worked values from outside, and calls that take memory, with memory at hand.

mod carriers;
mod damaged_frames;
mod endpoints;
mod frames;
mod journal;
mod lent;
mod memory;
mod option_lists;
mod options;
mod providers;
mod queue;
mod reasons;
mod receivers;
mod registry;
mod send_parts;
mod senders;
mod streams;
mod summary;
mod wires;
