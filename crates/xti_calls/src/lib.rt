//! The library: the calls of XTI in their own types, over a hall in which threads meet.
#![tactic(auto)]

mod answers;
mod buffers;
mod caller;
mod calling;
mod flags;
mod forms;
mod library;
mod shared;

pub use answers::{Fail, Max, TCall};
pub use caller::Caller;
pub use calling::{Halt, call, resume};
pub use flags::{T_EXPEDITED, T_MORE};
pub use library::{Ended, Seat};
pub use shared::Xti;
pub use xti_base::{
    AllocFail, Bufs, Errno, Event, Fd, Info, Limit, Octets, Parts, Prov, Seq, ServType, Sizes,
    State, StructKind, T_ORDRELDATA, T_SENDZERO, t_alloc, t_strerror, t_sysconf,
};
pub use xti_data::SendParts;
pub use xti_gather::{Cell, Glance};
pub use xti_hall::{NoSeat, Stall};
pub use xti_model::{
    Act, Applied, Call, Entries, Entry, Go, Outcome, Profile, Providers, Reply, WrongValues,
};
pub use xti_opt::{
    T_CHECK, T_CURRENT, T_DEFAULT, T_FAILURE, T_NEGOTIATE, T_NOTSUPPORT, T_PARTSUCCESS, T_READONLY,
    T_SUCCESS,
};
pub use xti_step::{Gate, NoGate};
pub use xti_wants::{Want, WantKind};
