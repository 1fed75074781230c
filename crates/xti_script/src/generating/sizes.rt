//! The sizes of a generated script.

/// How many workers send datagrams around, each to the next: workers 1 to this one.
pub const RING: u32 = 8;

/// The worker that accepts the connection and receives.
pub const ACCEPTING: u32 = 9;

/// The worker that connects and sends.
pub const CONNECTING: u32 = 10;

/// How often each of these workers sends or receives.
pub const ROUNDS: u32 = 1_024;

/// The most bytes that are sent at once: the sizes are 1 to this one, each one more than the one before, and then 1 again.
pub const MOST_SENT: u32 = 64;

/// The lines of a script: those of the setup, two for each round of each worker of the ring, one for each round of
/// each side of the connection, and five that begin or end the connection.
pub const LINES: usize = 2 * RING as usize
    + 5
    + 2 * RING as usize * ROUNDS as usize
    + 2 * ROUNDS as usize
    + 5;
