//! Sockets over ticotsord: the calls of XTI that each call of a socket makes, and what a socket receives. What contracts
//! see of a caller is here too.
#![tactic(auto)]

mod accepting;
mod caller;
mod fail;
mod heard;
mod kept;
mod limits;
mod listener;
mod opening;
mod phase;
mod sock;

pub use caller::{CallEnd, Caller};
pub use fail::SockFail;
pub use phase::Phase;
pub use sock::Sock;
