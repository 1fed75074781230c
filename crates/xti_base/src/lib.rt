//! Names, numbers, small lists and allocated structures of the X/Open Transport Interface.
#![tactic(auto)]

mod building;
mod errno;
mod items;
mod kinds;
mod limit;
pub mod limits;
mod octets;
mod options;
pub mod reasons;
mod room;
mod structures;
mod words;

pub use building::{let_go, write_over};
pub use errno::Errno;
pub use items::{Calls, Items, Numbers, Parts, Sizes};
pub use kinds::{Event, Fd, Prov, Seq, ServType, State};
pub use limit::{Info, Limit, T_ORDRELDATA, T_SENDZERO};
pub use octets::{BYTES_IN_VALUE, Octets};
pub use options::{Opt, is_option_list, size_of_front};
pub use room::Room;
pub use structures::{AllocFail, Bufs, StructKind, t_alloc};
pub use words::{t_strerror, t_sysconf};
