//! Options: lists of them, read and written (XNS, t_opthdr), and their negotiation (XNS, t_optmgmt).
#![tactic(auto)]

mod answers;
mod first;
mod laws;
mod negotiation;
mod numbers;
mod reading;
mod requests;
mod settings;
mod writing;

pub use laws::{negotiation_order, negotiation_table, round_trips, worked_negotiation};
pub use negotiation::{OptFail, negotiate};
pub use numbers::{
    T_CHECK, T_CURRENT, T_DEFAULT, T_FAILURE, T_NEGOTIATE, T_NOTSUPPORT, T_PARTSUCCESS, T_READONLY,
    T_SUCCESS, XTI_GENERIC, XTI_RCVBUF, XTI_RCVLOWAT, XTI_SNDBUF, XTI_SNDLOWAT,
};
pub use reading::{OptRead, read_options};
pub use requests::{OptRefusal, answer_size, negotiate_bytes};
pub use settings::Settings;
pub use writing::write_options;
pub use xti_base::Opt;

/// Options, in order.
pub type OptList = xti_base::Items<Opt>;
