//! Sources and sinks of bytes, which count their faults.
#![tactic(auto)]

mod memory;
mod sink;
mod source;
mod standard;
mod sure;
mod turns;

pub use memory::{MemSink, MemSource};
pub use sink::{Sink, WriteEnd, write_all};
pub use source::{Failed, ReadEnd, Source, read_all};
pub use standard::{StdSink, StdSource};
pub use sure::{SureSink, SureSource};
pub use turns::is_listed;
