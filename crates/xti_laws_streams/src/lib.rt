//! Laws of connections: what was received is a prefix of what was sent, and all of it after an orderly
//! release; a copy and a socket among them.
#![tactic(auto)]

mod copies;
mod laws;
mod sockets;

pub use copies::{PIECE, copies_are_legal, copies_copy_their_input, copies_make_their_calls};
pub use laws::{bytes_are_needed, connections_keep_order, replays_keep_order, scripts_keep_order};
pub use sockets::sockets_get_what_was_sent;
