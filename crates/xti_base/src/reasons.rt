//! Why a connection ended or wasn't made, as a disconnect tells it, and why a datagram wasn't delivered. XNS leaves
//! these numbers to the provider.

/// Nobody listens at the address.
pub const NO_LISTENER: u32 = 1;

/// The listener's queue is full, or its sequence numbers are used up.
pub const QUEUE_FULL: u32 = 2;

/// The listener rejected the request.
pub const REJECTED: u32 = 3;

/// The other side disconnected.
pub const ABORTED: u32 = 4;

/// The other side closed its endpoint.
pub const PEER_CLOSED: u32 = 5;

/// The code of a datagram that nobody was there to take.
pub const UNDELIVERABLE: u32 = 1;
