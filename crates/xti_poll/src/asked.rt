//! What is asked of one descriptor.

use xti_base::Fd;

/// A descriptor, and the events that are asked of it: the sum of their numbers.
#[derive(Clone, Copy, Debug, PartialEq, Eq)]
pub struct Asked {
    pub fd: Fd,
    pub events: u32,
}
