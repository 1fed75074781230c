//! Limits of the commands.

/// The most bytes that are copied over sockets.
pub const MOST_COPY: usize = 1_048_576;
