//! The switch's table: which addresses are bound, and of each place its generation and whether it is open.
#![tactic(auto)]

mod addresses;
mod binding;
mod place;
mod registry;

pub use registry::Registry;
