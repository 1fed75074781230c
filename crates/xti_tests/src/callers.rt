//! What callers of the library see: glances, their table and polls, and sockets.

mod poor;
mod sets;
mod sights;
mod sockets;
