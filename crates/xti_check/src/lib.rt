//! The judge of journals.
#![tactic(auto)]

mod going;
mod judgement;
mod judging;
mod same;
mod verdict;

pub use judgement::{Judgement, judge};
pub use verdict::{Verdict, check};
