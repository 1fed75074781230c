//! Limits.

/// The most turns of one call that take what isn't asked for.
pub const MOST_TURNS: u32 = 64;

/// The most requests that one accept takes: two in each turn.
pub const MOST_TAKEN: usize = 128;
